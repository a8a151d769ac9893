// What modules reach by edges, in a graph of 512 rows (`graph`).
ghost use Rattle.std.specs.Prelude.{◌≡◌, length, MatchOption};
ghost use Rattle.resolution.specs.Row.{holds, NoneFrom, First};
ghost use Rattle.resolution.specs.Graph.{rows_length, lacks, Collected, ReachedFrom};

use crate::graph::{any_lacking, lacking};
use crate::row::Row;
use crate::word::next_one;

// The first position from k on that the row holds, if there is one. A word with none costs one test.
pub fn next_in(row: Row, k: usize) -> Option<usize>
    ensures { MatchOption result (NoneFrom (holds row.words) k 512) (First (holds row.words) k 512) }
{
    let words = row.words;
    let mut at = k;
    // Kept: a `for` over the words is no plainer: the first one is looked at from k % 64 on, and so would stand apart.
    while at < 512 {
        let q = at / 64;
        if let Some(b) = next_one(words[q], at % 64) {
            return Some(q * 64 + b);
        }
        at = q * 64 + 64;
    }
    None
}

// The first position from k on that an edge from m leads to and that out does not hold, if there is one: whether there is any
// is one test of all words.
fn next_edge(g: &[u64], m: usize, out: Row, k: usize) -> Option<usize>
    requires { length g.now ≡ rows_length }
    ensures { MatchOption result (NoneFrom (lacks g.now m out.words) k 512) (First (lacks g.now m out.words) k 512) }
{
    if m < 512 && any_lacking(g, m, out) {
        return next_in(lacking(g, m, out), k);
    }
    None
}

// The marks, and what m reaches by positions that they do not hold.
pub fn collect_transitive_reads(g: &[u64], m: usize, marks: Row) -> Row
    requires { length g.now ≡ rows_length }
    ensures { Collected g.now m 512 marks.words result.words }
{
    let mut out = marks;
    let mut k = 0;
    while let Some(j) = next_edge(g, m, out, k) {
        k = j + 1;
        out = out.with(j);
        if any_lacking(g, j, out) {
            out = collect_transitive_reads(g, j, out);
        }
    }
    out
}

// The row, and exactly what its positions reach by one edge or more.
pub fn reachable_from(g: &[u64], from: Row) -> Row
    requires { length g.now ≡ rows_length }
    ensures { ReachedFrom g.now from.words result.words }
{
    let mut out = from;
    let mut k = 0;
    while let Some(m) = next_in(from, k) {
        k = m + 1;
        if any_lacking(g, m, out) {
            out = collect_transitive_reads(g, m, out);
        }
    }
    out
}

// Rows of nine words: eight of a position's edges, and one whose lowest bit is an edge to ALL-UNNAMED. Where each word of the 512 rows
// lies is said in `specs/Graph`.
ghost use Rattle.std.specs.Prelude.{◌≡◌, ◌+◌, ◌≤◌, ◌<◌, length, replicate};
ghost use Rattle.records.specs.Output.{written};
ghost use Rattle.records.specs.Finder.{is_at};
ghost use Rattle.resolution.specs.Graph.{rows_length, Successors, Lacking, AnyLacking};
ghost use Rattle.resolution.specs.Readability.{Below, edges_of, unnamed_from, WithEdges, WithUnnamed, RowSet};

use crate::configuration::add_read;
use crate::row::Row;
use records::bytes::same;

// How many words the 512 rows have.
pub const ROWS: usize = 4608;

// Row i of the graph.
pub fn row_at(g: &[u64], i: usize) -> Row
    requires g_len { length g.now ≡ rows_length }
    requires i_bound { i < 512 }
    ensures { Successors g.now i result.words }
{
    let at = i * 9;
    let mut words = [0u64; 8];
    words.copy_from_slice(&g[at..at + 8]);
    Row { words }
}

// Writes the eight words of a row at `at`.
pub fn put_row(words: &mut [u64], at: usize, row: Row)
    requires { at + 8 ≤ length words.old }
    ensures { words.new ≡ written words.old at row.words }
{
    words[at..at + 8].copy_from_slice(&row.words);
}

// The edges of row i anew.
pub fn set_row(g: &mut [u64], i: usize, row: Row)
    requires g_len { length g.old ≡ rows_length }
    requires i_bound { i < 512 }
    ensures { RowSet g.old i row.words g.new }
{
    put_row(g, i * 9, row);
}

// The edge from i to what is found: the row of i is lent.
pub fn set_edge(i: usize, target: Option<usize>, rows: &mut [u64])
    requires i_bound { i < 512 }
    requires below { Below target }
    requires rows_len { length rows.old ≡ rows_length }
    ensures { WithEdges rows.old (edges_of i (is_at target)) rows.new }
{
    match target {
        Some(j) => {
            let at = i * 9;
            let end = at + 8;
            add_read(&mut rows[at..end], j);
        }
        None => {}
    }
}

// The edge of an AR to ALL-UNNAMED: the ninth word of its source's row.
pub fn set_unnamed(source: Option<usize>, target: &[u8], rows: &mut [u64])
    requires below { Below source }
    requires rows_len { length rows.old ≡ rows_length }
    ensures { WithUnnamed rows.old (unnamed_from source target.now) rows.new }
{
    if same(target, b"ALL-UNNAMED") {
        match source {
            Some(i) => {
                let at = i * 9 + 8;
                rows[at] = 1;
            }
            None => {}
        }
    }
}

// Every word 0.
pub fn clear(rows: &mut [u64])
    requires { length rows.old ≡ rows_length }
    ensures { rows.new ≡ replicate rows_length 0 }
{
    rows.fill(0);
}

// The positions that an edge from m leads to and that out does not hold.
pub fn lacking(g: &[u64], m: usize, out: Row) -> Row
    requires g_len { length g.now ≡ rows_length }
    requires m_bound { m < 512 }
    ensures { Lacking g.now m out.words result.words }
{
    row_at(g, m).zip_words(out, |edges, marks| edges & !marks)
}

// There is such a position. False only where there is none.
pub fn any_lacking(g: &[u64], m: usize, out: Row) -> bool
    requires { length g.now ≡ rows_length }
    ensures { AnyLacking g.now m out.words result }
{
    if m >= 512 {
        return false;
    }
    let mut lacking = 0;
    for k in 0..8 {
        lacking |= g[m * 9 + k] & !out.words[k];
    }
    lacking != 0
}

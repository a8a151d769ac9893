// Read edges, added one by one with `add_read`, and read one by one with `reads`.
ghost use Rattle.std.specs.Prelude.{◌≤◌, length};

use crate::rows::{MEMBER_WORDS, ROW_WORDS, row};
use cases::Stored;
use resolution::configuration::{add_read, reads, reads_unnamed};

// The edges of these rows, in the rows of a configuration; how many there are.
pub fn add_rows(words: &mut [u64], rows: &[u8]) -> usize
    requires { 4616 ≤ length words.old }
{
    let mut stored = Stored { rest: rows };
    let mut edges = 0usize;
    for own in words[MEMBER_WORDS..].chunks_exact_mut(ROW_WORDS) {
        if stored.is_empty() {
            break;
        }
        let targets = row(&mut stored);
        stored.byte();
        for j in 0..512 {
            if targets.has(j) {
                add_read(own, j);
                edges = edges.saturating_add(1);
            }
        }
    }
    edges
}

// The same edges at all 512 positions.
pub fn is_reads(a: &[u64], b: &[u64]) -> bool
    requires in_a { 4616 ≤ length a.now }
    requires in_b { 4616 ≤ length b.now }
{
    for i in 0..512 {
        let at = MEMBER_WORDS + ROW_WORDS * i;
        let end = at + 8;
        if a[at..end] != b[at..end] {
            return false;
        }
    }
    true
}

// Position i reads those of the row at the front, and no others.
fn has_row(words: &[u64], i: usize, stored: &mut Stored<'_>) -> bool {
    let targets = row(stored);
    usize::from(reads_unnamed(words, i)) == stored.byte()
        && (0..512).all(|j| reads(words, i, j) == targets.has(j))
}

// The positions have these rows, at most 512.
pub fn has_rows(words: &[u64], rows: &[u8]) -> bool {
    let mut stored = Stored { rest: rows };
    for i in 0..512 {
        if stored.is_empty() {
            break;
        }
        if !has_row(words, i, &mut stored) {
            return false;
        }
    }
    true
}

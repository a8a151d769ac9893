// The words of a configuration, which the host lends: the members, who reads whom, and who reads the unnamed module, by positions in
// the set. Each function reads one of the three where it lies; `add_read` adds a position to the words of a row. Words that are not
// there count as 0.
ghost use Rattle.std.specs.Prelude.{◌≡◌, ℕ, ◌+◌, ◌<◌, ◌≤◌, get_or};
ghost use Rattle.resolution.specs.Row.{size};
ghost use Rattle.resolution.specs.Configuration.{member_words, member_bit, edge_bit, unnamed_bit, with_read};
ghost use Rattle.resolution.specs.Readability.{Holding};

use crate::row::Row;
use crate::word::{word_has, word_with};

// How many words a configuration has.
pub const WORDS: usize = 4616;

// How many of them stand for the members, ahead of the rows.
pub const MEMBER_WORDS: usize = 8;

// Word `at`, 0 where there is none.
fn word(words: &[u64], at: usize) -> u64
    ensures { result ≡ get_or words.now at 0 }
{
    words.get(at).copied().unwrap_or(0)
}

// i is a member.
pub fn contains(words: &[u64], i: usize) -> bool
    ensures { result ≡ member_bit words.now i }
{
    i < 512 && word_has(word(words, i / 64), i % 64)
}

// i reads j.
pub fn reads(words: &[u64], i: usize, j: usize) -> bool
    ensures { result ≡ edge_bit words.now i j }
{
    i < 512 && j < 512 && word_has(word(words, 8 + (i * 9 + j / 64)), j % 64)
}

// i reads the unnamed module.
pub fn reads_unnamed(words: &[u64], i: usize) -> bool
    ensures { result ≡ unnamed_bit words.now i }
{
    i < 512 && word_has(word(words, 8 + (i * 9 + 8)), 0)
}

// The eight words from `at` on, as a row.
fn row_from(words: &[u64], at: usize) -> Row
    requires { at ≤ 4608 }
    ensures { (k : ℕ) → k < 8 → get_or result.words k 0 ≡ get_or words.now (at + k) 0 }
{
    let mut own = [0u64; 8];
    for k in 0..8 {
        own[k] = word(words, at + k);
    }
    Row { words: own }
}

// The modules that i reads, as a row.
pub fn row_of(words: &[u64], i: usize) -> Row
    ensures { Holding result.words (edge_bit words.now i) }
{
    if i < 512 {
        return row_from(words, MEMBER_WORDS + i * 9);
    }
    Row::empty()
}

// The words of one row, lent as a part of those of a configuration or by themselves, get position j. From 512 on there is none, and
// nothing changes.
pub fn add_read(row: &mut [u64], j: usize)
    ensures { row.new ≡ with_read row.old j }
{
    let at = j / 64;
    if j < 512 && at < row.len() {
        row[at] = word_with(row[at], j % 64);
    }
}

// The members, as a row.
pub fn members(words: &[u64]) -> Row
    ensures { Holding result.words (member_bit words.now) }
{
    row_from(words, 0)
}

// How many members there are.
pub fn len(words: &[u64]) -> usize
    ensures { result ≡ size (member_words words.now) }
{
    members(words).count()
}

// Rows and configurations: the stored ones as words, and what the words are compared with.
ghost use Rattle.std.specs.Prelude.{◌≤◌, length};

use cases::Stored;
use resolution::row::Row;

// Where the words are wanted: numbers of this program's own, so that those of the code under test are held against them. Eight
// words of members, and behind them a row for each position: eight words of positions, and one that says whether it has ALL-UNNAMED.
pub const MEMBER_WORDS: usize = 8;

pub const ROW_WORDS: usize = 9;

// Eight bytes as a word.
fn word(stored: &mut Stored<'_>) -> u64 {
    let high = stored.large_number() as u64;
    let low = stored.large_number() as u64;
    (high << 32) | low
}

// The words at the front, as many as are lent.
fn put(words: &mut [u64], stored: &mut Stored<'_>) {
    for place in words {
        *place = word(stored);
    }
}

// A row's positions.
pub fn row(stored: &mut Stored<'_>) -> Row {
    let mut words = [0u64; 8];
    put(&mut words, stored);
    Row { words }
}

// The members at the front, and a row for each position; those without a stored row have an empty one.
pub fn put_rows(words: &mut [u64], stored: &mut Stored<'_>)
    requires { 4616 ≤ length words.old }
{
    let (members, rows) = words.split_at_mut(MEMBER_WORDS);
    put(members, stored);
    for row in rows.chunks_exact_mut(ROW_WORDS) {
        if let Some((unnamed, positions)) = row.split_last_mut() {
            put(positions, stored);
            *unnamed = stored.byte() as u64;
        }
    }
}

// Each word is 7.
pub fn is_filled(words: &[u64]) -> bool {
    words.iter().all(|word| *word == 7)
}

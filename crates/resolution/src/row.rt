// A set of up to 512 module positions, as a row of eight words.
ghost use Rattle.std.specs.Prelude.{◌≡◌, ◌&&◌, ◌||◌, ℕ, ◌/◌, ◌%◌, ◌<◌, ◌≤◌, eqb, get_or};
ghost use Rattle.std.specs.Int.Count;
ghost use Rattle.resolution.specs.Row.{bit, holds, size, Empty, United, Intersected, Added};

use crate::word::{word_has, word_with};

#[derive(Clone, Copy)]
pub struct Row {
    pub words: [u64; 8],
}

impl Row {
    // Position k is held. No position from 512 on is.
    pub fn has(self, k: usize) -> bool
        ensures { result ≡ holds self.words k }
    {
        k < 512 && word_has(self.words[k / 64], k % 64)
    }

    // The row with position k more. From 512 on there is none, and the row stays as it is. Each word of the half that k is in is made
    // anew, so that none is read back right after a part of the row was written.
    pub fn with(self, k: usize) -> Row
        ensures { Added self.words k result.words }
    {
        let mut words = self.words;
        // Kept: with one loop over the eight words 512 automatic modules take 1.3 times as long to resolve.
        if k < 256 {
            for q in 0..4 {
                words[q] = word_of(words[q], q, k);
            }
        } else if k < 512 {
            for q in 4..8 {
                words[q] = word_of(words[q], q, k);
            }
        }
        Row { words }
    }

    // No position.
    pub fn empty() -> Row
        ensures { Empty result.words }
    {
        Row { words: [0; 8] }
    }

    // No position is held.
    pub fn is_empty(self) -> bool
        ensures { result ≡ eqb (size self.words) 0 }
    {
        self.count() == 0
    }

    // The row of what f makes of each two words.
    pub(crate) fn zip_words<F: Fn(u64, u64) -> u64>(self, other: Row, f: F) -> Row
        requires { (x y : ℕ) → F.pre f x y }
        ensures { (k : ℕ) → k < 8 → F.post f (get_or self.words k 0) (get_or other.words k 0) (get_or result.words k 0) }
    {
        let mut words = [0u64; 8];
        for k in 0..8 {
            words[k] = f(self.words[k], other.words[k]);
        }
        Row { words }
    }

    // The positions of both.
    pub fn union(self, other: Row) -> Row
        ensures { United self.words other.words result.words }
    {
        self.zip_words(other, |x, y| x | y)
    }

    // The positions that both have.
    pub fn intersection(self, other: Row) -> Row
        ensures { Intersected self.words other.words result.words }
    {
        self.zip_words(other, |x, y| x & y)
    }

    // How many positions are held.
    pub fn count(self) -> usize
        ensures { result ≡ size self.words }
    {
        let mut n = 0;
        for word in self.words {
            n += ones(word);
        }
        n
    }
}

// Word q of a row with position k more.
fn word_of(w: u64, q: usize, k: usize) -> u64
    ensures { (b : ℕ) → bit result b ≡ bit w b || (eqb (k / 64) q && eqb b (k % 64)) }
{
    if k / 64 == q {
        return word_with(w, k % 64);
    }
    w
}

// The ones of a word.
fn ones(w: u64) -> usize
    ensures value { result ≡ Count.ones w }
    ensures upper_bound { result ≤ 64 }
{
    u64::count_ones(w) as usize
}

// The bits of a word, one by one.
ghost use Rattle.std.specs.Prelude.{◌≡◌, ◌||◌, ℕ, ◌^◌, ◌<◌, eqb, MatchOption};
ghost use Rattle.std.specs.Int.Bits.{bit_or};
ghost use Rattle.resolution.specs.Row.{bit, NoneFrom, First};

// Bit b of w.
pub fn word_has(w: u64, b: usize) -> bool
    requires { b < 64 }
    ensures { result ≡ bit w b }
{
    (w >> b) % 2 == 1
}

// w with bit b set.
pub fn word_with(w: u64, b: usize) -> u64
    requires { b < 64 }
    ensures by_index { (k : ℕ) → bit result k ≡ bit w k || eqb k b }
    ensures value { result ≡ bit_or w (2 ^ b) }
{
    w | (1u64 << b)
}

// The position of the lowest one of w from bit b on, if there is one.
pub fn next_one(w: u64, b: usize) -> Option<usize>
    requires { b < 64 }
    ensures { MatchOption result (NoneFrom (bit w) b 64) (First (bit w) b 64) }
{
    let r = b + (w >> b).trailing_zeros() as usize;
    if r < 64 { Some(r) } else { None }
}

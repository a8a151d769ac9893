// A number made from a name, for the filter of packages.
ghost use Rattle.std.specs.Prelude.{◌≡◌, ◌+◌, ◌≤◌, ◌<◌, length};
ghost use Rattle.resolution.specs.Hash.{word_at, mixed, chunk_at, short_hash, long_hash, hash_of};

use records::bytes::{byte, head};

// The byte as a wider number.
fn wide(x: u8) -> usize
    ensures value { result ≡ x }
    ensures upper_bound { result < 256 }
{
    x as usize
}

// The four bytes at `at` as a number, the low byte first. They are read directly, so that the compiler can make one read of them.
fn word(s: &[u8], at: usize) -> usize
    requires { at + 4 ≤ length s.now }
    ensures value { result ≡ word_at s.now at }
    ensures upper_bound { result < 4294967296 }
{
    wide(s[at]) + wide(s[at + 1]) * 256 + wide(s[at + 2]) * 65536 + wide(s[at + 3]) * 16777216
}

// The same where there may be fewer than four bytes.
fn short_word(s: &[u8], at: usize) -> usize
    requires { at ≤ 4 }
    ensures value { result ≡ word_at s.now at }
    ensures upper_bound { result < 4294967296 }
{
    byte(s, at) + byte(s, at + 1) * 256 + byte(s, at + 2) * 65536 + byte(s, at + 3) * 16777216
}

// One number of four words.
fn mix(a: usize, b: usize, c: usize, d: usize) -> usize
    requires a_bound { a < 4294967296 }
    requires b_bound { b < 4294967296 }
    requires c_bound { c < 4294967296 }
    requires d_bound { d < 4294967296 }
    ensures value { result ≡ mixed a b c d }
    ensures upper_bound { result < 36028797018963968 }
{
    a * 1881427 + b * 1364441 + c * 1534951 + d * 1366551
}

// One number of the 16 bytes at `at`.
fn chunk(s: &[u8], at: usize) -> usize
    requires { at + 16 ≤ length s.now }
    ensures value { result ≡ chunk_at s.now at }
    ensures upper_bound { result < 36028797018963968 }
{
    mix(
        word(s, at),
        word(s, at + 4),
        word(s, at + 8),
        word(s, at + 12),
    )
}

// A number made from a name of fewer than 16 bytes.
fn short_hash(s: &[u8]) -> usize
    requires { length s.now < 16 }
    ensures { result ≡ short_hash s.now }
{
    let n = s.len();
    if n < 8 {
        return mix(short_word(s, 0), short_word(s, 4), 0, 0) + n;
    }
    mix(word(s, 0), word(s, 4), word(s, n - 8), word(s, n - 4)) + n
}

// A number made from a name of 16 to 255 bytes: 16 at a time, and the last 16.
fn long_hash(s: &[u8]) -> usize
    requires in_bounds { 16 ≤ length s.now }
    requires s_len_bound { length s.now ≤ 255 }
    ensures { result ≡ long_hash s.now }
{
    let n = s.len();
    let m = (n - 1) / 16;
    let mut a = chunk(s, n - 16) + n;
    let mut b = a;
    for k in 0..m {
        a += chunk(s, 16 * k);
        b += a;
    }
    b
}

// A number made from the first 255 bytes of a name.
pub fn hash(name: &[u8]) -> usize
    ensures { result ≡ hash_of name.now }
{
    let s = head(name, 255);
    if s.len() < 16 {
        return short_hash(s) % 4294967291;
    }
    long_hash(s) % 4294967291
}

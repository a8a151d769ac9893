// Byte strings: equality, byte order, parts, and big-endian numbers.
ghost use Rattle.std.specs.Prelude.{◌≡◌, ◌+◌, ◌<◌, ◌≤◌, length, get_or, take, drop};
ghost use Rattle.records.specs.Bytes.{same_bytes, before_bytes, u16_at, AgreeAt, DifferAt};

// Whether a and b hold the same bytes.
pub fn same(a: &[u8], b: &[u8]) -> bool
    ensures { result ≡ same_bytes a.now b.now }
{
    a == b
}

// Whether the eight bytes of a from `at` on are those of b. There is no early exit, so that the compiler can take all of them at
// once.
fn same_eight(a: &[u8], b: &[u8], at: usize) -> bool
    requires in_a { at + 8 ≤ length a.now }
    requires in_b { at + 8 ≤ length b.now }
    ensures { result ≡ same_bytes (take 8 (drop at a.now)) (take 8 (drop at b.now)) }
{
    let mut equal = true;
    for k in 0..8usize {
        equal &= a[at + k] == b[at + k];
    }
    equal
}

// A place up to which a and b agree, not past n: eight bytes are taken at a time, as long as they are the same.
#[tactic(auto, using(crate::proofs::bytes::Laws::agree_next))]
fn agree(a: &[u8], b: &[u8], n: usize) -> usize
    requires in_a { n ≤ length a.now }
    requires in_b { n ≤ length b.now }
    ensures { AgreeAt a.now b.now n result }
{
    // Kept: after a `for` by step_by(8) a second variable would have to say where it stopped.
    let mut i: usize = 0;
    while 8 <= n - i && same_eight(a, b, i) {
        i += 8;
    }
    i
}

// The first place below n where a and b differ, n where there is none.
fn differ(a: &[u8], b: &[u8], n: usize) -> usize
    requires in_a { n ≤ length a.now }
    requires in_b { n ≤ length b.now }
    ensures { DifferAt a.now b.now n result }
{
    for i in agree(a, b, n)..n {
        if a[i] != b[i] {
            return i;
        }
    }
    n
}

// Whether a stands before b in byte order.
#[tactic(auto, using(crate::proofs::bytes::Laws::before_laws))]
pub fn before(a: &[u8], b: &[u8]) -> bool
    ensures { result ≡ before_bytes a.now b.now }
{
    // Kept: a.cmp(&b).is_lt() takes 1.2 to 1.6 times as long on names of 5 to 60 bytes.
    let n = a.len().min(b.len());
    let i = differ(a, b, n);
    if i < n {
        return a[i] < b[i];
    }
    a.len() < b.len()
}

// The byte at i, 0 where there is none.
pub fn byte(s: &[u8], i: usize) -> usize
    ensures value { result ≡ get_or s.now i 0 }
    ensures upper_bound { result < 256 }
{
    if s.len() <= i {
        return 0;
    }
    s[i] as usize
}

// The two bytes at `at` as a number, the high byte first; a byte that is not there is 0.
#[tactic(auto, unfolding(crate::specs::Bytes::u16_at))]
pub fn be16(s: &[u8], at: usize) -> usize
    ensures value { result ≡ u16_at s.now at }
    ensures upper_bound { result < 65536 }
{
    if s.len() <= at {
        return 0;
    }
    // Kept: u16::from_be_bytes([byte(s, at) as u8, byte(s, at + 1) as u8]) as usize says the same at greater length.
    let high = byte(s, at);
    let low = byte(s, at + 1);
    high * 256 + low
}

// What is left of s without its first n bytes.
#[tactic(auto, using(crate::proofs::bytes::Laws::tail_laws))]
pub fn tail(s: &[u8], n: usize) -> &[u8]
    ensures { result.now ≡ drop n s.now }
{
    if s.len() < n {
        return &s[..0];
    }
    &s[n..]
}

// The first n bytes of s, all of it where it has fewer.
#[tactic(auto, using(crate::proofs::bytes::Laws::head_laws))]
pub fn head(s: &[u8], n: usize) -> &[u8]
    ensures { result.now ≡ take n s.now }
{
    if s.len() < n {
        return s;
    }
    &s[..n]
}

// The len bytes of s from start on, or as many of them as there are.
#[tactic(auto, using(crate::proofs::bytes::Laws::part_is))]
pub fn part(s: &[u8], start: usize, len: usize) -> &[u8]
    ensures { result.now ≡ take len (drop start s.now) }
{
    head(tail(s, start), len)
}

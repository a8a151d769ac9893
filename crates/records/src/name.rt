// Names, versions and lists of names, as they stand at the front of a slice.
ghost use Rattle.std.specs.Prelude.{◌≡◌, ◌+◌, ◌≤◌, ◌&&◌, length, take, drop, leb};
ghost use Rattle.records.specs.Name.{printable as isPrintable, name_of, after_name, is_field, is_name, is_names, is_list, is_version, is_name_version, is_name_list, mem_name, names_of, list_of};

use crate::bytes::{be16, byte, head, same, tail};

// Whether every byte of s is from 0x21 to 0x7E. There is no early exit, so that the compiler can take all of them at once where
// the length is a constant.
fn printable_part(s: &[u8]) -> bool
    ensures { result ≡ isPrintable s.now }
{
    let mut good = true;
    for b in s {
        good &= b.is_ascii_graphic();
    }
    good
}

// Whether every byte of s is from 0x21 to 0x7E. The bytes are taken 16 at a time, or 8 or 4 where there are fewer than 16 or 8;
// the last part may have bytes in common with the one before it.
#[tactic(auto, using(crate::proofs::name::Laws::printable_laws))]
pub fn printable(s: &[u8]) -> bool
    ensures { result ≡ isPrintable s.now }
{
    // Kept: one loop over all bytes takes 1.4 times as long on names of 5 to 60 bytes, and `all` 6 times.
    let n = s.len();
    if n < 4 {
        return printable_part(s);
    }
    if n < 8 {
        return printable_part(&s[..4]) & printable_part(&s[n - 4..]);
    }
    if n < 16 {
        return printable_part(&s[..8]) & printable_part(&s[n - 8..]);
    }
    let last = n - 16;
    let mut good = printable_part(&s[last..]);
    let mut i: usize = 0;
    while i < last {
        good &= printable_part(&s[i..i + 16]);
        i += 16;
    }
    good
}

// The bytes of the name at the front of s, 255 at most.
#[tactic(auto, unfolding(crate::specs::Name::name_of))]
pub fn name_of(s: &[u8]) -> &[u8]
    ensures result_value { result.now ≡ name_of s.now }
    ensures result_len_bound { length result.now ≤ 255 }
{
    let n = byte(s, 0);
    let t = tail(s, 1);
    head(t, n)
}

// What stands behind that name.
pub fn after_name(s: &[u8]) -> &[u8]
    ensures { result.now ≡ after_name s.now }
{
    let n = byte(s, 0);
    tail(s, 1 + n)
}

// Whether a length byte and that many printable bytes stand at the front of s.
#[tactic(auto, unfolding(crate::specs::Name::is_field))]
pub fn is_field(s: &[u8]) -> bool
    ensures { result ≡ is_field s.now }
{
    1 + byte(s, 0) <= s.len() && printable(name_of(s))
}

// Whether a name stands at the front of s.
#[tactic(auto, unfolding(crate::specs::Name::is_name))]
pub fn is_name(s: &[u8]) -> bool
    ensures { result ≡ is_name s.now }
{
    byte(s, 0) != 0 && is_field(s)
}

// Whether s is `count` names and no more.
#[tactic(auto, using(crate::proofs::name::Laws::is_names_laws))]
pub fn is_names(s: &[u8], count: usize) -> bool
    ensures { result ≡ is_names count s.now }
{
    let mut t = s;
    for _ in 0..count {
        if !is_name(t) {
            return false;
        }
        t = after_name(t);
    }
    t.is_empty()
}

// Whether s is a list and no more.
#[tactic(auto, unfolding(crate::specs::Name::is_list))]
pub fn is_list(s: &[u8]) -> bool
    ensures { result ≡ is_list s.now }
{
    2 <= s.len() && is_names(tail(s, 2), be16(s, 0))
}

// Whether s is a version and no more.
#[tactic(auto, unfolding(crate::specs::Name::is_version, crate::specs::Name::is_empty))]
pub fn is_version(s: &[u8]) -> bool
    ensures { result ≡ is_version s.now }
{
    is_field(s) && after_name(s).is_empty()
}

// Whether s is a name and a version and no more.
#[tactic(auto, unfolding(crate::specs::Name::is_name_version))]
pub fn is_name_version(s: &[u8]) -> bool
    ensures { result ≡ is_name_version s.now }
{
    is_name(s) && is_version(after_name(s))
}

// Whether s is a name and a list and no more.
#[tactic(auto, unfolding(crate::specs::Name::is_name_list))]
pub fn is_name_list(s: &[u8]) -> bool
    ensures { result ≡ is_name_list s.now }
{
    is_name(s) && is_list(after_name(s))
}

// Whether the name is one of the first `count` names of s.
#[tactic(auto, using(crate::proofs::name::Laws::has_name_laws))]
pub fn has_name(s: &[u8], count: usize, name: &[u8]) -> bool
    ensures { result ≡ mem_name name.now (names_of count s.now) }
{
    let mut t = s;
    for _ in 0..count {
        if same(name_of(t), name) {
            return true;
        }
        t = after_name(t);
    }
    false
}

// Whether the name is in the list.
#[tactic(auto, unfolding(crate::specs::Name::list_of))]
pub fn list_has(s: &[u8], name: &[u8]) -> bool
    ensures { result ≡ mem_name name.now (list_of s.now) }
{
    let n = be16(s, 0);
    let t = tail(s, 2);
    has_name(t, n, name)
}

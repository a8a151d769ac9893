// Comparison of two names in byte order, by their first 16 bytes as numbers first.
ghost use Rattle.std.specs.Prelude.{◌≡◌, ◌+◌, ◌≤◌, ◌<◌, length};
ghost use Rattle.records.specs.Set.{name_at};
ghost use Rattle.records.specs.Keys.{standing, Key, key_standing, Alike};

use crate::bytes::{before, byte, same};
use crate::finder::name_at;
use std::cmp::Ordering;

// The keys of a name: the numbers of its bytes 0 to 7 and 8 to 15, the high byte first, zeros behind its end.
#[derive(Clone, Copy)]
pub struct Keys {
    pub first: usize,
    pub next: usize,
}

// How a stands to b in byte order.
#[tactic(auto, using(crate::proofs::keys::Laws::compare_laws))]
pub fn compare(a: &[u8], b: &[u8]) -> Ordering
    ensures { result ≡ standing a.now b.now }
{
    if same(a, b) {
        return Ordering::Equal;
    }
    if before(a, b) {
        return Ordering::Less;
    }
    Ordering::Greater
}

// The eight bytes at `at` as a number. They are read directly, so that the compiler can make one read of them.
fn eight(s: &[u8], at: usize) -> usize
    requires { at + 8 ≤ length s.now }
    ensures { Key s.now at result }
{
    usize::from_be_bytes([
        s[at],
        s[at + 1],
        s[at + 2],
        s[at + 3],
        s[at + 4],
        s[at + 5],
        s[at + 6],
        s[at + 7],
    ])
}

// The first eight bytes as a number, where there may be fewer.
fn short_key(s: &[u8]) -> usize
    ensures { Key s.now 0 result }
{
    usize::from_be_bytes([
        byte(s, 0) as u8,
        byte(s, 1) as u8,
        byte(s, 2) as u8,
        byte(s, 3) as u8,
        byte(s, 4) as u8,
        byte(s, 5) as u8,
        byte(s, 6) as u8,
        byte(s, 7) as u8,
    ])
}

// The first key of a name.
fn first_key(s: &[u8]) -> usize
    ensures { Key s.now 0 result }
{
    if 8 <= s.len() {
        return eight(s, 0);
    }
    short_key(s)
}

// The next key of a name.
#[tactic(auto, using(crate::proofs::keys::Laws::next_laws))]
fn next_key(s: &[u8]) -> usize
    ensures { Key s.now 8 result }
{
    let n = s.len();
    if 16 <= n {
        return eight(s, 8);
    }
    // the shift drops those of the last eight bytes that the first key has
    if 8 < n {
        return eight(s, n - 8) << (8 * (16 - n));
    }
    0
}

impl Keys {
    // The keys of this name.
    pub fn of(name: &[u8]) -> Keys
        ensures first { Key name.now 0 result.first }
        ensures next { Key name.now 8 result.next }
    {
        Keys {
            first: first_key(name),
            next: next_key(name),
        }
    }

    // How a name with these keys stands to a name with those, as far as the keys tell.
    #[tactic(auto, using(crate::proofs::keys::Laws::by_laws))]
    pub fn compare(self, other: Keys) -> Ordering
        ensures { result ≡ key_standing self.first self.next other.first other.next }
    {
        // Kept: `cmp` with `then` compares both keys each time.
        if self.first < other.first {
            return Ordering::Less;
        }
        if other.first < self.first {
            return Ordering::Greater;
        }
        self.next.cmp(&other.next)
    }
}

// How the name of the MO at this offset of the set, of l bytes, stands to a name with the same keys.
#[tactic(auto, using(crate::proofs::keys::Laws::settle_laws))]
pub fn settle(set: &[u8], at: usize, l: usize, name: &[u8]) -> Ordering
    requires alike { Alike (name_at set.now at) name.now }
    requires l_value { l ≡ length (name_at set.now at) }
    ensures { result ≡ standing (name_at set.now at) name.now }
{
    if name.len() <= 16 {
        if l == name.len() {
            return Ordering::Equal;
        }
    }
    compare(name_at(set, at), name)
}

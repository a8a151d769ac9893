// A quick test that a name is in none of the modules seen so far: a table of 65,536 bits in 1024 words, two bits for a name.
ghost use Rattle.std.specs.Prelude.{◌≡◌, false, ◌||◌, [], ◌∷◌, map, ◌<◌, length};
ghost use Rattle.records.specs.Name.{name_of};
ghost use Rattle.records.specs.Record.{bodies};
ghost use Rattle.resolution.specs.Lists.{any};
ghost use Rattle.resolution.specs.Row.{holds};
ghost use Rattle.resolution.specs.Filter.{has_bits, is_marked, BitSet, BitsSet, MarkedAll};

use crate::hash::hash;
use crate::word::{word_has, word_with};
use records::bytes::part;
use records::name::name_of;
use records::record::{Cursor, Kind};

// Bit a.
fn bit_at(filter: &[u64], a: usize) -> bool
    requires filter_len { length filter.now ≡ 1024 }
    requires a_bound { a < 65536 }
    ensures { result ≡ holds filter.now a }
{
    word_has(filter[a / 64], a % 64)
}

// Sets bit a.
fn set_bit(filter: &mut [u64], a: usize)
    requires filter_len { length filter.old ≡ 1024 }
    requires a_bound { a < 65536 }
    ensures { BitSet filter.old a filter.new }
{
    let at = a / 64;
    filter[at] = word_with(filter[at], a % 64);
}

// Whether both bits of a name's number are set.
fn has_bits(filter: &[u64], h: usize) -> bool
    requires { length filter.now ≡ 1024 }
    ensures { result ≡ has_bits filter.now h }
{
    bit_at(filter, h % 65536) && bit_at(filter, h / 65536 % 65536)
}

// Sets both.
fn set_bits(filter: &mut [u64], h: usize)
    requires { length filter.old ≡ 1024 }
    ensures { BitsSet filter.old h filter.new }
{
    set_bit(filter, h % 65536);
    set_bit(filter, h / 65536 % 65536);
}

// Sets both bits of the name; whether they were set.
fn mark(filter: &mut [u64], name: &[u8]) -> bool
    requires { length filter.old ≡ 1024 }
    ensures value { result ≡ is_marked filter.old name.now }
    ensures marked_all { MarkedAll filter.old (name.now ∷ []) filter.new }
{
    let h = hash(name);
    let was = has_bits(filter, h);
    set_bits(filter, h);
    was
}

// Marks the name in front of each record of this kind of the block. Where it answers false, none of them was marked.
pub fn mark_names(filter: &mut [u64], block: &[u8], kind: Kind) -> bool
    requires { length filter.old ≡ 1024 }
    ensures marked_all { MarkedAll filter.old (map name_of (bodies kind block.now)) filter.new }
    ensures block_value { result ≡ false → any (is_marked filter.old) (map name_of (bodies kind block.now)) ≡ false }
{
    let mut c = Cursor { at: 0 };
    let mut met = false;
    while let Some(span) = c.next(block, kind) {
        met |= mark(filter, name_of(span.of(block)));
        c = span.next;
    }
    met
}

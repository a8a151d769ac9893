// Names in byte order without repeats, as a table of entries: where a name starts in its slice, times 65,536, and its length.
ghost use Rattle.std.specs.Prelude.{◌≡◌, true, map, ◌+◌, ◌-◌, ◌*◌, ◌≤◌, ◌<◌, length, take, drop};
ghost use Rattle.records.specs.Name.{name_of, names_of, mem_name};
ghost use Rattle.records.specs.Record.{bodies};
ghost use Rattle.records.specs.Order.{name_in, is_ordered, Placed, stands_at, shifted, Inserted, NamesInserted, PackagesOrdered};

use crate::bytes::{before, byte, head, part, same, tail};
use crate::name::name_of;
use crate::record::{Cursor, Kind};

// The name that an entry tells.
#[tactic(auto, unfolding(crate::specs::Order::name_in))]
pub fn name_in(s: &[u8], entry: usize) -> &[u8]
    ensures { result.now ≡ name_in s.now entry }
{
    part(s, entry / 65536, entry % 65536)
}

// How many entries have names before this one: a binary search.
#[tactic(auto, using(crate::proofs::order::Laws::place_laws))]
fn place_by_halves(s: &[u8], table: &[usize], name: &[u8]) -> usize
    requires { is_ordered (map (name_in s.now) table.now) ≡ true }
    ensures { Placed s.now table.now (length table.now) name.now result }
{
    // Kept: `partition_point` compares one or two names more each time, and a resolution that looks up in a table of five services
    // misses the bar of 50 ms by it.
    let mut low: usize = 0;
    let mut high = table.len();
    while low < high {
        let middle = low + (high - low) / 2;
        if before(name_in(s, table[middle]), name) {
            low = middle + 1;
        } else {
            high = middle;
        }
    }
    low
}

// The same: the last is tested first, since names often come in order.
fn place(s: &[u8], table: &[usize], name: &[u8]) -> usize
    requires { is_ordered (map (name_in s.now) table.now) ≡ true }
    ensures { Placed s.now table.now (length table.now) name.now result }
{
    if let Some(last) = table.last() {
        if before(name_in(s, *last), name) {
            return table.len();
        }
    }
    place_by_halves(s, table, name)
}

// Whether the name stands at `at`.
#[tactic(auto, unfolding(crate::specs::Order::stands_at))]
fn stands_at(s: &[u8], table: &[usize], at: usize, name: &[u8]) -> bool
    ensures { result ≡ stands_at s.now table.now (length table.now) at name.now }
{
    at < table.len() && same(name, name_in(s, table[at]))
}

// Moves the elements from `from` up to `count` up by one.
pub fn shift(table: &mut [usize], from: usize, count: usize)
    requires from_le_count { from ≤ count }
    requires count_in_bounds { count < length table.old }
    ensures { table.new ≡ shifted table.old from count }
{
    table.copy_within(from..count, from + 1);
}

// Puts the entry where its name belongs among the first `count`, unless its name stands there; returns their number.
pub fn insert(s: &[u8], table: &mut [usize], count: usize, entry: usize) -> usize
    requires count_in_bounds { count < length table.old }
    requires table_value { is_ordered (map (name_in s.now) (take count table.old)) ≡ true }
    ensures { Inserted s.now table.old table.new count entry result }
{
    let name = name_in(s, entry);
    let at = place(s, &table[..count], name);
    if stands_at(s, &table[..count], at, name) {
        return count;
    }
    shift(table, at, count);
    table[at] = entry;
    count + 1
}

// Whether the name is one of the first `count` entries'.
pub fn contains(s: &[u8], table: &[usize], count: usize, name: &[u8]) -> bool
    requires count_in_bounds { count ≤ length table.now }
    requires table_value { is_ordered (map (name_in s.now) (take count table.now)) ≡ true }
    ensures { result ≡ mem_name name.now (map (name_in s.now) (take count table.now)) }
{
    let table = &table[..count];
    let at = place_by_halves(s, table, name);
    stands_at(s, table, at, name)
}

// Puts the names in front of the records of this kind, of s from `from` up to `to`, where they belong among the first `count`;
// returns their number.
#[tactic(auto, using(crate::proofs::order::Packages::names_laws))]
pub fn insert_names(
    s: &[u8],
    from: usize,
    to: usize,
    kind: Kind,
    table: &mut [usize],
    count: usize,
) -> usize
    requires s_len_bound { length s.now ≤ 65535 }
    requires from_bound { 4 * count + (to - from) ≤ 4 * length table.old }
    requires table_value { is_ordered (map (name_in s.now) (take count table.old)) ≡ true }
    ensures names_inserted { NamesInserted s.now (map name_of (bodies kind (drop from (take to s.now)))) table.old table.new count result }
    ensures result_bound { 4 * result ≤ 4 * count + (to - from) }
{
    let source = head(s, to);
    let mut c = Cursor { at: from };
    let mut n = count;
    while let Some(span) = c.next(source, kind) {
        let name = name_of(span.of(source));
        n = insert(s, table, n, (span.start + 1) * 65536 + name.len());
        c = span.next;
    }
    n
}

// Fills the table with the packages of package records in byte order without repeats; returns their number.
#[tactic(auto, using(crate::proofs::order::Packages::packages_laws))]
pub fn ordered_packages(s: &[u8], table: &mut [usize]) -> usize
    requires s_len_bound { length s.now ≤ 65535 }
    requires table_room { length s.now ≤ 4 * length table.old }
    ensures { PackagesOrdered s.now table.old table.new result }
{
    insert_names(s, 0, s.len(), Kind::Package, table, 0)
}

// Puts the n names that stand in s from `from` on, one after the other, in byte order without repeats into the table; returns
// their number.
#[tactic(auto, using(crate::proofs::order::Lists::list_laws))]
pub fn insert_list(s: &[u8], from: usize, n: usize, table: &mut [usize]) -> usize
    requires from_bound { from ≤ 65535 }
    requires n_bound { n ≤ 65535 }
    requires n_in_bounds { n ≤ length table.old }
    ensures names_inserted { NamesInserted s.now (names_of n (drop from s.now)) table.old table.new 0 result }
    ensures upper_bound { result ≤ n }
{
    let mut at = from;
    let mut count: usize = 0;
    for _ in 0..n {
        let name = name_of(tail(s, at));
        count = insert(s, table, count, (at + 1) * 65536 + name.len());
        at = at + 1 + byte(s, at);
    }
    count
}

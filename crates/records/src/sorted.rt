// Lookup of a module by its name: an index of a set's modules with the table of the visible ones in ascending byte order of their
// names, which is searched by halves.
// `index` has 2,050 entries. Entries 3 p, 3 p + 1 and 3 p + 2 tell the name of position p, below 512: its first eight bytes, the next
// eight, and its length. Entry 1536 is how many entries the table has, entry 1537 the one of them that is compared first, and from
// 1538 on stands the table.
ghost use Rattle.std.specs.Prelude.{◌≡◌, map, ◌+◌, ◌-◌, ◌*◌, ◌≤◌, ◌<◌, length, get_or, take};
ghost use Rattle.records.specs.Set.{name_at, module_limit};
ghost use Rattle.records.specs.Finder.{find_name};
ghost use Rattle.records.specs.Keys.{standing, Key};
ghost use Rattle.records.specs.Sorted.{middle_of, name_of_position, search_at, search_ten, Placing, Below, entries_in, table_in, put_at, Indexed, indexed-prop, Added, entries_slot, first_slot, table_slot, index_length};

use crate::keys::{Keys, settle};
use crate::order::shift;
use std::cmp::Ordering;

// Where the index tells how many entries the table has.
const ENTRIES_SLOT: usize = 1536;

// Where it tells which of them is compared first.
const FIRST_SLOT: usize = 1537;

// Where the table begins.
const TABLE_SLOT: usize = 1538;

// How many names a search compares at most.
const MOST_COMPARED: usize = 10;

// How many entries the index has.
pub const INDEX_LENGTH: usize = 2050;

// How many entries the table has.
#[tactic(auto, unfolding(crate::specs::Sorted::entries_in))]
pub fn entries(index: &[usize]) -> usize
    requires { length index.now ≡ index_length }
    ensures { result ≡ entries_in index.now }
{
    index[ENTRIES_SLOT]
}

// The position at entry m of the table.
pub fn position(index: &[usize], m: usize) -> usize
    requires index_len { length index.now ≡ index_length }
    requires m_lt_module_limit { m < module_limit }
    ensures { result ≡ get_or index.now (table_slot + m) 0 }
{
    index[TABLE_SLOT + m]
}

// The middle between low and high.
#[tactic(auto, unfolding(crate::specs::Sorted::middle_of))]
fn middle(low: usize, high: usize) -> usize
    requires { low ≤ high }
    ensures value { result ≡ middle_of low high }
    ensures upper_bound { result ≤ high }
{
    low + (high - low) / 2
}

// What is looked in: the first `count` modules of the table of starts, and the index of their names.
#[derive(Clone, Copy)]
struct Modules<'a> {
    set: &'a [u8],
    starts: &'a [usize],
    count: usize,
    index: &'a [usize],
    ghost within: { count ≤ length starts.now },
    ghost indexed: { Indexed (map (name_at set.now) (take count starts.now)) index.now } by { indexed-prop (map (name_at set.now) (take count starts.now)) index.now },
}

impl<'a> Modules<'a> {
    ghost use Rattle.records.specs.Modules.{names_in};

    // The keys of the name of position i.
    fn keys(&self, i: usize) -> Keys
        requires { i < module_limit }
        ensures first { result.first ≡ get_or self.now.index.now (3 * i) 0 }
        ensures next { result.next ≡ get_or self.now.index.now (3 * i + 1) 0 }
    {
        Keys {
            first: self.index[3 * i],
            next: self.index[3 * i + 1],
        }
    }

    // How the name of entry m of the table stands to this name, which has these keys. It stands in each turn of
    // the search's loop, so it is not to be a call.
    #[inline(always)]
    #[tactic(auto, using(crate::proofs::sorted::Laws::entry_laws))]
    fn compare_entry(&self, m: usize, name: &[u8], keys: Keys) -> Ordering
        requires m_bound { m < entries_in self.now.index.now }
        requires key { Key name.now 0 keys.first }
        requires next_key { Key name.now 8 keys.next }
        ensures { result ≡ standing (name_of_position (names_in self.now) (get_or (table_in self.now.index.now) m 0)) name.now }
    {
        let i = self.index[TABLE_SLOT + m];
        match self.keys(i).compare(keys) {
            Ordering::Equal => settle(self.set, self.starts[i], self.index[3 * i + 2], name),
            unequal => unequal,
        }
    }

    // Where the name stands in the table, or else the number of the entry that it belongs before: a search by halves that compares
    // ten names at most, that of entry `first` first.
    #[tactic(auto, using(crate::proofs::sorted::Laws::seek_laws))]
    fn seek(&self, first: usize, name: &[u8]) -> Result<usize, usize>
        requires { first ≤ entries_in self.now.index.now - 1 }
        ensures { result ≡ search_at 10 (names_in self.now) (table_in self.now.index.now) name.now 0 first (length (table_in self.now.index.now)) }
    {
        let keys = Keys::of(name);
        let mut low: usize = 0;
        let mut high = self.index[ENTRIES_SLOT];
        let mut m = first;
        for _ in 0..MOST_COMPARED {
            if high <= low {
                return Err(low);
            }
            match self.compare_entry(m, name, keys) {
                Ordering::Equal => return Ok(m),
                Ordering::Less => {
                    low = m + 1;
                    m = middle(low, high);
                }
                Ordering::Greater => {
                    high = m;
                    m = middle(low, high);
                }
            }
        }
        Err(low)
    }

    // Where the name belongs, if the names of the entries below h stand before it: h is compared first, since it often belongs
    // there.
    #[tactic(auto, using(crate::proofs::sorted::Laws::place_laws))]
    fn place_from(&self, h: usize, name: &[u8], keys: Keys) -> Result<usize, usize>
        requires h_bound { h ≤ entries_in self.now.index.now }
        requires below { Below (names_in self.now) (table_in self.now.index.now) name.now h }
        requires key { Key name.now 0 keys.first }
        requires next_key { Key name.now 8 keys.next }
        ensures { Placing (names_in self.now) (table_in self.now.index.now) name.now result }
    {
        let n = self.index[ENTRIES_SLOT];
        if h == n {
            return Err(n);
        }
        match self.compare_entry(h, name, keys) {
            Ordering::Equal => Ok(h),
            Ordering::Less => self.seek(n / 2, name),
            Ordering::Greater => Err(h),
        }
    }

    // Where the name belongs: the entry that was put in last is compared first and then the one behind it, since names often come
    // in order.
    #[tactic(auto, using(crate::proofs::sorted::Laws::place_laws))]
    fn place_of(&self, name: &[u8], keys: Keys) -> Result<usize, usize>
        requires key { Key name.now 0 keys.first }
        requires next_key { Key name.now 8 keys.next }
        ensures { Placing (names_in self.now) (table_in self.now.index.now) name.now result }
    {
        let n = self.index[ENTRIES_SLOT];
        if n == 0 {
            return Err(0);
        }
        let h = self.index[FIRST_SLOT];
        match self.compare_entry(h, name, keys) {
            Ordering::Equal => Ok(h),
            Ordering::Less => self.place_from(h + 1, name, keys),
            Ordering::Greater => self.seek(n / 2, name),
        }
    }
}

// The module of this name: the first of the first `count` modules of the table of starts that has it.
#[tactic(auto, using(crate::proofs::sorted::Laws::find_laws))]
pub fn find_in(
    set: &[u8],
    starts: &[usize],
    count: usize,
    index: &[usize],
    name: &[u8],
) -> Option<usize>
    requires count_le_module_limit { count ≤ module_limit }
    requires count_in_bounds { count ≤ length starts.now }
    requires indexed { Indexed (map (name_at set.now) (take count starts.now)) index.now }
    ensures value { result ≡ search_ten (map (name_at set.now) (take count starts.now)) (table_in index.now) (get_or index.now first_slot 0) name.now }
    ensures walk_value { result ≡ find_name (map (name_at set.now) (take count starts.now)) name.now 0 }
{
    let modules = Modules {
        set,
        starts,
        count,
        index,
    };
    match modules.seek(index[FIRST_SLOT], name) {
        Ok(m) => Some(index[TABLE_SLOT + m]),
        Err(_) => None,
    }
}

// Puts position i at entry `at` of the table, with the numbers of its name.
#[tactic(auto, using(crate::proofs::sorted::Laws::put_laws))]
fn put(index: &mut [usize], at: usize, i: usize, keys: Keys, len: usize)
    requires index_len { length index.old ≡ index_length }
    requires at_bound { at ≤ entries_in index.old }
    requires index_bound { entries_in index.old < module_limit }
    requires i_lt_module_limit { i < module_limit }
    ensures { index.new ≡ put_at index.old at i keys.first keys.next len }
{
    let n = index[ENTRIES_SLOT];
    shift(index, TABLE_SLOT + at, TABLE_SLOT + n);
    index[TABLE_SLOT + at] = i;
    index[ENTRIES_SLOT] = n + 1;
    index[FIRST_SLOT] = at;
    index[3 * i] = keys.first;
    index[3 * i + 1] = keys.next;
    index[3 * i + 2] = len;
}

// Adds the next module, which has this name, to the index of those before it, unless its name is there. Where it answers true, no
// module before it has the name.
#[tactic(auto, using(crate::proofs::sorted::Laws::add_laws))]
pub fn add(set: &[u8], starts: &[usize], count: usize, index: &mut [usize], name: &[u8]) -> bool
    requires count_lt_module_limit { count < module_limit }
    requires count_in_bounds { count ≤ length starts.now }
    requires indexed { Indexed (map (name_at set.now) (take count starts.now)) index.old }
    ensures { Added (map (name_at set.now) (take count starts.now)) name.now index.new result }
{
    let keys = Keys::of(name);
    let modules = Modules {
        set,
        starts,
        count,
        index,
    };
    match modules.place_of(name, keys) {
        Ok(_) => false,
        Err(at) => {
            put(index, at, count, keys, name.len());
            true
        }
    }
}

// Has java.base compared first from now on, if it is there: most modules require it.
#[tactic(auto, using(crate::proofs::sorted::Laws::first_laws))]
pub fn look_first(set: &[u8], starts: &[usize], count: usize, index: &mut [usize])
    requires count_in_bounds { count ≤ length starts.now }
    requires indexed { Indexed (map (name_at set.now) (take count starts.now)) index.old }
    ensures { Indexed (map (name_at set.now) (take count starts.now)) index.new }
{
    let name = b"java.base";
    let modules = Modules {
        set,
        starts,
        count,
        index,
    };
    if let Ok(m) = modules.seek(index[ENTRIES_SLOT] / 2, name) {
        index[FIRST_SLOT] = m;
    }
}

// The modules of a set that the check takes: where each starts, and the index of their names.
ghost use Rattle.std.specs.Prelude.{◌≡◌, Ok};
ghost use Rattle.records.specs.Set.{check_set, block_at};
ghost use Rattle.records.specs.Finder.{find_name};
ghost use Rattle.records.specs.Sorted.{IndexedSet};
ghost use Rattle.resolution.specs.Lookup.{Lookup, lookup-prop};

use records::set::{Checked, block};
use records::sorted::find_in;

#[derive(Clone, Copy)]
pub struct ModuleTable<'a> {
    pub set: &'a [u8],
    pub starts: &'a [usize],
    pub count: usize,
    pub index: &'a [usize],
    pub ghost checked: { check_set set.now ≡ Ok (record { count = count; starts = starts.now }) },
    pub ghost lookup: { Lookup set.now starts.now count index.now } by { lookup-prop set.now starts.now count index.now },
}

impl<'a> ModuleTable<'a> {
    ghost use Rattle.resolution.specs.ModuleTable.{names_in};

    // The table of a set that the check takes, with the index that it leaves.
    pub fn new(set: &'a [u8], checked: &'a Checked, index: &'a [usize]) -> ModuleTable<'a>
        requires taken { check_set set.now ≡ Ok checked.now }
        requires indexed_set { IndexedSet set.now (Ok checked.now) index.now }
        ensures set { result.set.now ≡ set.now }
        ensures starts { result.starts.now ≡ checked.now.starts }
        ensures count { result.count ≡ checked.now.count }
    {
        ModuleTable {
            set,
            starts: &checked.starts,
            count: checked.count,
            index,
        }
    }

    // The position of the module of this name.
    pub fn find(&self, name: &[u8]) -> Option<usize>
        ensures { result ≡ find_name (names_in self.now) name.now 0 }
    {
        find_in(self.set, self.starts, self.count, self.index, name)
    }

    // The block of module i.
    pub fn block(&self, i: usize) -> &'a [u8]
        ensures { result.now ≡ block_at self.now.set.now self.now.starts.now i }
    {
        block(self.set, self.starts, i)
    }
}

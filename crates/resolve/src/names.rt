// A set that was resolved: names of its members in byte order, and the modules that they stand in.
ghost use Rattle.std.specs.Prelude.{◌≤◌, ◌<◌, length};

use bstr::{BStr, ByteSlice};
use records::bytes::tail;
use records::finder::name_at;
use records::name::name_of;
use records::order::{insert, name_in};
use records::record::{Cursor, Kind};
use resolution::configuration::contains;

// A set, where each of its modules starts, and the words of the configuration that it resolves to.
#[derive(Clone, Copy)]
pub struct Resolved<'a> {
    pub set: &'a [u8],
    pub starts: &'a [usize],
    pub words: &'a [u64],
}

impl<'a> Resolved<'a> {
    // The position of the module that has the byte at `at`: the last one that starts at or before it.
    fn module_at(&self, at: usize) -> usize {
        self.starts
            .partition_point(|start| *start <= at)
            .saturating_sub(1)
    }

    // The position of the module that the name of this entry stands in.
    pub fn module_of(&self, entry: usize) -> usize {
        self.module_at(entry / 65536)
    }

    // The name that this entry tells.
    pub fn name(&self, entry: usize) -> BStr<'a> {
        name_in(self.set, entry).as_bstr()
    }

    // The name of the module that the name of this entry stands in.
    pub fn module_name(&self, entry: usize) -> BStr<'a> {
        let start = self.starts.get(self.module_of(entry));
        BStr::new(start.map_or(b"", |start| name_at(self.set, *start)))
    }

    // The names in the records of this kind of the members, as entries of `records::order` in the table: in byte order, without
    // repeats. The name stands behind `skip` bytes of the body.
    #[tactic(auto, using(crate::proofs::names::Laws::names_laws))]
    pub fn in_order<'b>(&self, kind: Kind, skip: usize, table: &'b mut [usize]) -> &'b [usize]
        requires set_len_bound { length self.now.set.now ≤ 65536 }
        requires skip_bound { skip < 8 }
        requires in_bounds { 16384 ≤ length table.old }
    {
        let mut c = Cursor { at: 0 };
        let mut count: usize = 0;
        while let Some(span) = c.next(self.set, kind) {
            c = span.next;
            if contains(self.words, self.module_at(span.start)) {
                let at = span.start + skip;
                let name = name_of(tail(self.set, at));
                count = insert(self.set, table, count, (at + 1) * 65536 + name.len());
            }
        }
        &table[..count]
    }
}

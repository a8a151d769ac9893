// What the queue reads beside its own array.
ghost use Rattle.resolution.specs.Known.{Tables, tables-prop};

use crate::resolver::Phase;
use records::set::block;

#[derive(Clone, Copy)]
pub struct Sources<'a> {
    pub set: &'a [u8],
    pub request: &'a [u8],
    pub starts: &'a [usize],
    pub old: &'a [usize],
    pub phase: Phase,
    pub index: &'a [usize],
    pub names: &'a [usize],
    pub needed: &'a [usize],
    pub ghost tables: { Tables set.now request.now starts.now old.now phase index.now names.now needed.now } by { tables-prop _ _ _ _ _ _ _ _ },
}

impl<'a> Sources<'a> {
    ghost use Rattle.std.specs.Prelude.{◌≡◌};
    ghost use Rattle.records.specs.Set.{block_at};

    // The block of module i.
    pub fn block(&self, i: usize) -> &'a [u8]
        ensures { result.now ≡ block_at self.now.set.now self.now.starts.now i }
    {
        block(self.set, self.starts, i)
    }
}

// A set of modules: its check, and the block of each module.
ghost use Rattle.std.specs.Prelude.{◌≡◌, ◌+◌, ◌-◌, ◌≤◌, ◌<◌, [], map, length, get_or, take, drop};
ghost use Rattle.records.specs.Record.{set_kind};
ghost use Rattle.records.specs.Descriptor.{module_name};
ghost use Rattle.records.specs.Set.{is_placed, admit_at, pass_at, judge_at, check_set, block_at};
ghost use Rattle.records.specs.Sorted.{Indexed, Kept, IndexedSet};

use crate::bytes::{part, same, tail};
use crate::error::{Input, ModuleError};
use crate::finder::find;
use crate::name::name_of;
use crate::record::{Cursor, Kind, Step, is_body, set_kind};
use crate::sorted::{INDEX_LENGTH, add, look_first};

// How many modules a set has at most.
pub const MODULE_LIMIT: usize = 512;

// How many entries the table of a set's modules has: one for each, and one for the end.
pub const STARTS_LENGTH: usize = 513;

// What one record of a set leads to, where the set is not refused.
#[derive(Clone, Copy)]
pub enum Verdict {
    // A module starts here.
    Start,
    // The module has its main class.
    Main,
    // A place starts here.
    Enter,
    Pass,
}

// The records so far: how many modules there are, and how many of them stand before the present place; how many places, the first
// being there before its PL; and whether the last module has its main class.
#[derive(Clone, Copy)]
pub struct Seen {
    pub count: usize,
    pub first: usize,
    pub places: usize,
    pub main: bool,
}

// How many modules a set has, and the table of them: where each starts, then the set's length, then zeros.
#[derive(Clone, Copy)]
pub struct Checked {
    pub count: usize,
    pub starts: [usize; STARTS_LENGTH],
}

// Whether a record of this kind may stand here, where the present place has `count` modules so far and the last has its main class or
// not.
#[tactic(auto, unfolding(crate::specs::Set::is_placed))]
fn is_placed(count: usize, main: bool, kind: Kind) -> bool
    ensures { result ≡ is_placed count main kind }
{
    match kind {
        Kind::Module | Kind::Place => true,
        Kind::MainClass => !main && 0 < count,
        Kind::Root
        | Kind::LimitModules
        | Kind::AddReads
        | Kind::AddExports
        | Kind::AddOpens
        | Kind::Static
        | Kind::Other => false,
        _ => 0 < count,
    }
}

// The entries of a table from number `first` on.
#[tactic(auto, using(crate::proofs::set::Laws::later_laws))]
fn later(starts: &[usize], first: usize) -> &[usize]
    ensures { result.now ≡ drop first starts.now }
{
    if starts.len() < first {
        return &starts[..0];
    }
    &starts[first..]
}

// The records of a set before the one at `at`: where the modules so far start, and what was seen.
#[derive(Clone, Copy)]
struct Before<'a> {
    set: &'a [u8],
    starts: &'a [usize],
    seen: Seen,
    at: usize,
    ghost first_le_count: { seen.first ≤ seen.count },
    ghost count_in_bounds: { seen.count ≤ length starts.now },
}

// The index has the names of the modules so far.
impl<'a> Before<'a> {
    ghost use Rattle.records.specs.Before.{names_in, passed_in};

    // An MO at `at`. Where it starts a module, its name is added to the index. A name that is there already is looked for among
    // those of the present place.
    #[tactic(auto, using(crate::proofs::set::Laws::admit_laws))]
    fn admit(&self, body: &[u8], index: &mut [usize]) -> Result<Verdict, ModuleError>
        requires { Indexed (names_in self.now) index.old }
        ensures value { result ≡ admit_at self.now.set.now (passed_in self.now) self.now.at body.now }
        ensures kept { Kept (names_in self.now) (module_name body.now) index.old index.new result }
    {
        let count = self.seen.count;
        if MODULE_LIMIT <= count {
            return Err(ModuleError::TooLarge(self.at));
        }
        let name = name_of(tail(body, 3));
        if same(name, b"ALL-UNNAMED") {
            return Err(ModuleError::Repeated(self.at));
        }
        if add(self.set, self.starts, count, index, name) {
            return Ok(Verdict::Start);
        }
        let first = self.seen.first;
        match find(self.set, later(self.starts, first), count - first, name) {
            Some(_) => Err(ModuleError::Repeated(self.at)),
            None => Ok(Verdict::Start),
        }
    }

    // A well-formed record at `at` that may stand there.
    #[tactic(auto, using(crate::proofs::set::Laws::pass_laws))]
    fn pass(&self, kind: Kind, body: &[u8], index: &mut [usize]) -> Result<Verdict, ModuleError>
        requires { Indexed (names_in self.now) index.old }
        ensures value { result ≡ pass_at self.now.set.now (passed_in self.now) self.now.at kind body.now }
        ensures kept { Kept (names_in self.now) (module_name body.now) index.old index.new result }
    {
        match kind {
            Kind::Module => self.admit(body, index),
            Kind::MainClass => Ok(Verdict::Main),
            Kind::Place => {
                if 8 <= self.seen.places {
                    return Err(ModuleError::TooLarge(self.at));
                }
                Ok(Verdict::Enter)
            }
            _ => Ok(Verdict::Pass),
        }
    }

    // The record at `at`, of this kind and body.
    #[tactic(auto, using(crate::proofs::set::Laws::judge_laws))]
    fn judge(&self, kind: Kind, body: &[u8], index: &mut [usize]) -> Result<Verdict, ModuleError>
        requires { Indexed (names_in self.now) index.old }
        ensures value { result ≡ judge_at self.now.set.now (passed_in self.now) self.now.at kind body.now }
        ensures kept { Kept (names_in self.now) (module_name body.now) index.old index.new result }
    {
        let seen = self.seen;
        if is_placed(seen.count - seen.first, seen.main, kind) {
            if is_body(kind, body) {
                return self.pass(kind, body, index);
            }
        }
        Err(ModuleError::Malformed(Input::Set, self.at))
    }
}

// The check of a set: its length, then its records from front to back, in one pass. The index, which is empty before, gets the
// names of its modules.
#[tactic(auto, using(crate::proofs::set::Laws::check_set_with_laws))]
pub fn check_set_with(set: &[u8], index: &mut [usize]) -> Result<Checked, ModuleError>
    requires { Indexed [] index.old }
    ensures value { result ≡ check_set set.now }
    ensures indexed_set { IndexedSet set.now result index.new }
{
    if 65535 < set.len() {
        return Err(ModuleError::TooLarge(0));
    }
    let mut c = Cursor { at: 0 };
    let mut starts = [0usize; STARTS_LENGTH];
    let mut seen = Seen {
        count: 0,
        first: 0,
        places: 1,
        main: false,
    };
    loop {
        let at = c.at;
        match c.step(set) {
            Step::Record {
                mark,
                start,
                len,
                next,
            } => {
                let before = Before {
                    set,
                    starts: &starts,
                    seen,
                    at,
                };
                match before.judge(set_kind(mark), part(set, start, len), index)? {
                    Verdict::Start => {
                        let count = seen.count;
                        starts[count] = at;
                        seen.count = count + 1;
                        seen.main = false;
                    }
                    Verdict::Main => {
                        seen.main = true;
                    }
                    Verdict::Enter => {
                        seen.first = seen.count;
                        if 0 < at {
                            seen.places += 1;
                        }
                    }
                    Verdict::Pass => {}
                }
                c = next;
            }
            Step::Bad => return Err(ModuleError::Malformed(Input::Set, at)),
            Step::End => {
                let count = seen.count;
                look_first(set, &starts, count, index);
                starts[count] = set.len();
                return Ok(Checked { count, starts });
            }
        }
    }
}

// The same, for a caller that looks no module up.
#[tactic(auto, using(crate::proofs::sorted::Index::check_set_laws))]
pub fn check_set(set: &[u8]) -> Result<Checked, ModuleError>
    ensures { result ≡ check_set set.now }
{
    let mut index = [0usize; INDEX_LENGTH];
    check_set_with(set, &mut index)
}

// Entry i of a table, 0 where there is none: where module i starts, or the one before it ends.
#[tactic(auto, using(crate::proofs::set::Laws::entry_none))]
pub fn entry(starts: &[usize], i: usize) -> usize
    ensures { result ≡ get_or starts.now i 0 }
{
    if starts.len() <= i {
        return 0;
    }
    starts[i]
}

// The part of the set from the start of module i to the next entry of the table: its block, and any PL behind it.
#[tactic(auto, using(crate::proofs::set::Laws::block_laws))]
pub fn block<'a>(set: &'a [u8], starts: &[usize], i: usize) -> &'a [u8]
    ensures { result.now ≡ block_at set.now starts.now i }
{
    if starts.len() <= i {
        return &set[..0];
    }
    let from = starts[i];
    let to = entry(starts, i + 1);
    if to < from {
        return &set[..0];
    }
    part(set, from, to - from)
}

// Messages on standard error: which modules of a set are hidden, and by which place. Places are numbered from 1.
ghost use Rattle.std.specs.Prelude.{◌≤◌, length};

use bstr::ByteSlice;
use records::finder::name_at;
use records::record::{Cursor, Kind};
use records::set::check_set_with;
use records::sorted::INDEX_LENGTH;
use resolution::module_table::ModuleTable;

// The place that has the byte at `at`: one more for each PL before it but one at the front.
fn place_of(set: &[u8], at: usize) -> usize
    requires { length set.now ≤ 65536 }
{
    let mut c = Cursor { at: 0 };
    let mut place: usize = 1;
    while let Some(span) = c.next(set, Kind::Place) {
        if at < span.start {
            break;
        }
        c = span.next;
        if 4 < span.start {
            place += 1;
        }
    }
    place
}

// The module at offset `at` is hidden by the one of its name at offset `first`.
fn tell(rt: &impl Eprint, set: &[u8], at: usize, first: usize)
    requires { length set.now ≤ 65536 }
{
    let name = name_at(set, at).as_bstr();
    let (place, hiding) = (place_of(set, at), place_of(set, first));
    let _ = eprintln!(rt; "{name} of place {place} is hidden by place {hiding}");
}

// A message for each module whose name an earlier one has.
#[tactic(auto, using(crate::proofs::hidden::Laws::hidden_laws))]
fn list_hidden(rt: &impl Eprint, table: &ModuleTable<'_>)
    requires { length table.now.set.now ≤ 65536 }
{
    let starts = &table.starts[..table.count];
    for (i, at) in starts.iter().enumerate() {
        if let Some(first) = table.find(name_at(table.set, *at)) {
            if first < i {
                tell(rt, table.set, *at, starts[first]);
            }
        }
    }
}

// The hidden modules of a set, on standard error; none where the check refuses it. A line that cannot be written is
// passed over.
#[tactic(auto, using(crate::proofs::hidden::Laws::hidden_laws))]
pub fn tell_hidden(rt: &impl Eprint, set: &[u8])
    requires { length set.now ≤ 65536 }
{
    let mut index = [0usize; INDEX_LENGTH];
    if let Ok(checked) = check_set_with(set, &mut index) {
        list_hidden(rt, &ModuleTable::new(set, &checked, &index));
    }
}

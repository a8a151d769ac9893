// Lookup of a module by its name: the walk from the front over a set's modules.
ghost use Rattle.std.specs.Prelude.{◌≡◌, map, take};
ghost use Rattle.records.specs.Set.{name_at};
ghost use Rattle.records.specs.Finder.{find_name, is_at};

use crate::bytes::{be16, part, same, tail};
use crate::name::name_of;

// The name of the MO at this offset of the set.
#[tactic(auto, unfolding(crate::specs::Set::name_at, crate::specs::Set::body_at, crate::specs::Descriptor::module_name, crate::specs::Record::size_of))]
pub fn name_at(set: &[u8], at: usize) -> &[u8]
    ensures { result.now ≡ name_at set.now at }
{
    let t = tail(set, at);
    let n = be16(t, 2);
    name_of(tail(part(t, 4, n), 3))
}

// The position of the first of the first `count` modules of the table that has this name.
#[tactic(auto, using(crate::proofs::finder::Laws::find_laws))]
pub fn find(set: &[u8], starts: &[usize], count: usize, name: &[u8]) -> Option<usize>
    ensures { result ≡ find_name (map (name_at set.now) (take count starts.now)) name.now 0 }
{
    for i in 0..count.min(starts.len()) {
        if same(name_at(set, starts[i]), name) {
            return Some(i);
        }
    }
    None
}

// Whether what is found is position i.
#[tactic(auto, using(crate::proofs::finder::Laws::at_laws))]
pub fn is_at(found: Option<usize>, i: usize) -> bool
    ensures { result ≡ is_at found i }
{
    match found {
        Some(j) => i == j,
        None => false,
    }
}

// The member of a name, over the table of a set that the check takes.
ghost use Rattle.std.specs.Prelude.{◌≡◌};
ghost use Rattle.records.specs.Set.{check_set};
ghost use Rattle.resolution.specs.Lookup.{Lookup};
ghost use Rattle.access.specs.Members.{member_in};

use resolution::configuration::contains;
use resolution::module_table::ModuleTable;

// The member of this name.
#[tactic(auto, using(crate::proofs::access::Laws::find_laws), unfolding(crate::specs::Members::member_in, crate::specs::Members::among_members))]
pub fn member(table: &ModuleTable, words: &[u64], name: &[u8]) -> Option<usize>
    ensures { result ≡ member_in table.now.set.now words.now name.now }
{
    match table.find(name) {
        Some(i) => {
            if contains(words, i) {
                return Some(i);
            }
            None
        }
        None => None,
    }
}

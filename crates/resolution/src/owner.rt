// The owner of a package among the members of a configuration.
ghost use Rattle.std.specs.Prelude.{◌≡◌, ◌≤◌, length};
ghost use Rattle.resolution.specs.Configuration.{word_count};
ghost use Rattle.records.specs.Descriptor.{descriptor_of};
ghost use Rattle.records.specs.Set.{block_at};
ghost use Rattle.resolution.specs.Lookup.{owns_by};
ghost use Rattle.resolution.specs.ModuleTable.{names_in};
ghost use Rattle.resolution.specs.PackageOwner.{find_module_for_package};
ghost use Rattle.resolution.specs.Readability.{table_names};

use crate::configuration::{WORDS, contains};
use crate::module_table::ModuleTable;
use records::descriptor::{has_package, name};
use records::error::ModuleError;
use records::finder::is_at;
use records::set::check_set_with;
use records::sorted::INDEX_LENGTH;

// Position i of the n modules is a member, and its module has the package and is not hidden.
fn owns(table: &ModuleTable, words: &[u64], i: usize, pkg: &[u8]) -> bool
    ensures { result ≡ owns_by (names_in table.now) words.now pkg.now i (descriptor_of (block_at table.now.set.now table.now.starts.now i)) }
{
    if contains(words, i) {
        let b = table.block(i);
        if has_package(b, pkg) {
            return is_at(table.find(name(b)), i);
        }
    }
    false
}

// The lowest position of a member that has the package: positions without a module, and hidden ones, are passed over.
fn find_member(table: &ModuleTable, words: &[u64], pkg: &[u8]) -> Option<usize>
    requires { word_count ≤ length words.now }
    ensures { Ok result ≡ find_module_for_package table.now.set.now words.now pkg.now }
{
    for i in 0..table.count {
        if owns(table, words, i, pkg) {
            return Some(i);
        }
    }
    None
}

// The lowest position of a member that has the package. The set is checked first, then the number of words; positions without a
// module, and hidden ones, are passed over.
pub fn find_module_for_package(
    set: &[u8],
    words: &[u64],
    pkg: &[u8],
) -> Result<Option<usize>, ModuleError>
    ensures { result ≡ find_module_for_package set.now words.now pkg.now }
{
    let mut index = [0usize; INDEX_LENGTH];
    let checked = check_set_with(set, &mut index)?;
    if words.len() < WORDS {
        return Err(ModuleError::OutputTooShort(WORDS));
    }
    let table = ModuleTable::new(set, &checked, &index);
    Ok(find_member(&table, words, pkg))
}

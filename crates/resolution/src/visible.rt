// Which modules of a set are visible: those in the table of its index.
ghost use Rattle.std.specs.Prelude.{◌≡◌};
ghost use Rattle.records.specs.Set.{check_set, modules};
ghost use Rattle.resolution.specs.ModuleTable.{names_in};
ghost use Rattle.resolution.specs.Positions.{is_visible};
ghost use Rattle.resolution.specs.Readability.{Holding};

use crate::configuration::add_read;
use crate::module_table::ModuleTable;
use crate::row::Row;
use records::sorted::{entries, position};

// The positions of the modules that are not hidden.
pub fn visible(table: &ModuleTable) -> Row
    ensures { Holding result.words (is_visible (modules table.now.set.now)) }
{
    let mut words = [0u64; 8];
    for k in 0..entries(table.index) {
        add_read(&mut words, position(table.index, k));
    }
    Row { words }
}

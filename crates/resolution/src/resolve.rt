// Resolution of a set and a request: which modules start, and whom each reads.
ghost use Rattle.std.specs.Prelude.{◌≡◌, ◌≤◌, length};
ghost use Rattle.records.specs.Request.{request_of};
ghost use Rattle.records.specs.Set.{modules};
ghost use Rattle.resolution.specs.Configuration.{word_count};
ghost use Rattle.resolution.specs.Resolution.{resolve as resolution};
ghost use Rattle.resolution.specs.Resolve.{told, resolve as resolveBytes};

use crate::configuration::WORDS;
use crate::configure::{configure, permitted};
use crate::module_table::ModuleTable;
use crate::resolver::{Halt, Resolver};
use crate::roots::resolve_order;
use records::error::ModuleError;
use records::request::check_with;
use records::sorted::INDEX_LENGTH;

// A set and a request that the check takes, and enough words. Nothing is written before the queue has ended without a refusal.
fn resolve_checked(
    table: &ModuleTable,
    request: &[u8],
    words: &mut [u64],
) -> Result<(), ModuleError>
    requires request_len_bound { length request.now ≤ 65535 }
    requires word_count_in_bounds { word_count ≤ length words.old }
    ensures { told table.now.set.now request.now words.old (resolution (modules table.now.set.now) (request_of request.now)) ≡ record { outcome = result; words = words.new } }
{
    let row = permitted(table, request);
    let mut resolver = Resolver::new();
    resolve_order(table, request, row, &mut resolver);
    match resolver.queue.halt {
        Halt::Open => {
            configure(table, request, &resolver.order, resolver.queue.tail, words);
            Ok(())
        }
        Halt::Stop(e) | Halt::Refused(e) => Err(e),
    }
}

// Which modules start, and whom each reads, in the first 4,616 of the lent words: the check of the set and the request, the number of
// words, then refusals 5 to 7 as met. A refusal changes no word.
pub fn resolve(set: &[u8], request: &[u8], words: &mut [u64]) -> Result<(), ModuleError>
    ensures { resolveBytes set.now request.now words.old ≡ record { outcome = result; words = words.new } }
{
    let mut index = [0usize; INDEX_LENGTH];
    let checked = check_with(set, request, &mut index)?;
    if words.len() < WORDS {
        return Err(ModuleError::OutputTooShort(WORDS));
    }
    let table = ModuleTable::new(set, &checked, &index);
    resolve_checked(&table, request, words)
}

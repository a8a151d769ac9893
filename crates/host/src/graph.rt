// The graph of reads over the words of a configuration: rows of eight words, a bit for each position.
ghost use Rattle.std.specs.Prelude.{◌≡◌};
ghost use Rattle.access.specs.ReadGraph.{readers_of, transitive_reads};
ghost use Rattle.host.specs.Host.{graph_reply, row_after, RowTold};
ghost use Rattle.host.specs.Reply.{Told};

use crate::reply::{answer, refuse};
use access::graph::{GraphAnswer, readers_of, transitive_reads};
use records::error::ModuleError;

// The answer is 1 where ALL-UNNAMED is among what the row tells, else 0.
#[tactic(auto, unfolding(crate::specs::Host::graph_reply, crate::specs::Host::row_after))]
fn tell(g: Result<GraphAnswer, ModuleError>, row: &mut [u64; 8], particulars: &mut [u64; 4]) -> u64
    ensures { Told (graph_reply g) particulars.new result × (row.new ≡ row_after row.old g) }
{
    match g {
        Ok(told) => {
            let words = told.row;
            *row = words;
            answer(particulars, told.unnamed as usize)
        }
        Err(e) => refuse(particulars, e),
    }
}

// The members that read the module of this name, or ALL-UNNAMED.
#[unsafe(no_mangle)]
pub extern "C" fn saqhovune_readers_of(
    set: &[u8],
    words: &[u64],
    name: &[u8],
    row: &mut [u64; 8],
    particulars: &mut [u64; 4],
) -> u64
    ensures { RowTold (readers_of set.now words.now name.now) row.old row.new particulars.new result }
{
    tell(readers_of(set, words, name), row, particulars)
}

// What one read edge or more lead to from the module of this name.
#[unsafe(no_mangle)]
pub extern "C" fn saqhovune_transitive_reads(
    set: &[u8],
    words: &[u64],
    name: &[u8],
    row: &mut [u64; 8],
    particulars: &mut [u64; 4],
) -> u64
    ensures { RowTold (transitive_reads set.now words.now name.now) row.old row.new particulars.new result }
{
    tell(transitive_reads(set, words, name), row, particulars)
}

// Checking and resolving.
ghost use Rattle.std.specs.Prelude.{◌≡◌};
ghost use Rattle.records.specs.Request.{check_inputs};
ghost use Rattle.records.specs.Set.{count_of};
ghost use Rattle.resolution.specs.Resolve.{resolve as resolveBytes};
ghost use Rattle.host.specs.Host.{set_reply, outcome_reply, Resolved};
ghost use Rattle.host.specs.Reply.{Told};

use crate::reply::{answer, refuse, tell_number};
use records::request::check;
use resolution::configuration::len;
use resolution::resolve::resolve;

// Checks a set and a request. The answer is the number of modules.
#[tactic(auto, unfolding(crate::specs::Host::set_reply, crate::specs::Host::written_reply))]
#[unsafe(no_mangle)]
pub extern "C" fn saqhovune_check(set: &[u8], request: &[u8], particulars: &mut [u64; 4]) -> u64
    ensures { Told (set_reply (count_of (check_inputs set.now request.now))) particulars.new result }
{
    match check(set, request) {
        Ok(checked) => answer(particulars, checked.count),
        Err(e) => refuse(particulars, e),
    }
}

// Resolves a set and a request into the first 4,616 of the lent words. The answer is the number of resolved modules.
#[tactic(auto, unfolding(crate::specs::Host::outcome_reply, crate::specs::Host::written_reply))]
#[unsafe(no_mangle)]
pub extern "C" fn saqhovune_resolve(
    set: &[u8],
    request: &[u8],
    words: &mut [u64],
    particulars: &mut [u64; 4],
) -> u64
    ensures { Resolved (resolveBytes set.now request.now words.old) words.new particulars.new result }
{
    let outcome = resolve(set, request, words);
    tell_number(particulars, outcome.map(|()| len(words)))
}

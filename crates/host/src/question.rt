// Questions over the words of a configuration.
ghost use Rattle.std.specs.Prelude.{◌≡◌};
ghost use Rattle.resolution.specs.PackageOwner.{find_module_for_package};
ghost use Rattle.access.specs.Access.{is_reflection, check_access};
ghost use Rattle.access.specs.CanRead.{can_read};
ghost use Rattle.host.specs.Host.{verdict_number, access_reply, read_reply, owner_reply};
ghost use Rattle.host.specs.Reply.{Told};

use crate::reply::{answer, answer_two, refuse, tell_number};
use access::access::{AccessCheckResult, AccessKind, can_read, check_access};
use resolution::owner::find_module_for_package;

// The number of a verdict.
#[tactic(auto, unfolding(crate::specs::Host::verdict_number))]
fn verdict(v: AccessCheckResult) -> usize
    ensures { result ≡ verdict_number v }
{
    match v {
        AccessCheckResult::Allowed => 0,
        AccessCheckResult::NotReadable => 1,
        AccessCheckResult::NotExported => 2,
        AccessCheckResult::NotOpened => 3,
    }
}

// The kind that a host tells by a bool: true is reflection.
fn kind_of(reflection: bool) -> AccessKind
    ensures { reflection ≡ is_reflection result }
{
    if reflection {
        AccessKind::Reflection
    } else {
        AccessKind::Access
    }
}

// Whether the asker may access the package of the target, or, where `reflection` is true, reflect on it. The answer is a verdict:
// 0 Allowed, 1 NotReadable, 2 NotExported (access), 3 NotOpened (reflection).
#[tactic(auto, unfolding(crate::specs::Host::access_reply, crate::specs::Host::written_reply))]
#[unsafe(no_mangle)]
pub extern "C" fn saqhovune_check_access(
    set: &[u8],
    request: &[u8],
    words: &[u64],
    reflection: bool,
    asker: &[u8],
    target: &[u8],
    pkg: &[u8],
    particulars: &mut [u64; 4],
) -> u64
    ensures { Told (access_reply (check_access reflection set.now request.now words.now asker.now target.now pkg.now)) particulars.new result }
{
    let kind = kind_of(reflection);
    let checked = check_access(set, request, words, kind, asker, target, pkg);
    tell_number(particulars, checked.map(verdict))
}

// Whether a module can read another. The answer is 1 or 0.
#[tactic(auto, unfolding(crate::specs::Host::read_reply, crate::specs::Host::written_reply))]
#[unsafe(no_mangle)]
pub extern "C" fn saqhovune_can_read(
    set: &[u8],
    words: &[u64],
    from: &[u8],
    to: &[u8],
    particulars: &mut [u64; 4],
) -> u64
    ensures { Told (read_reply (can_read set.now words.now from.now to.now)) particulars.new result }
{
    let checked = can_read(set, words, from, to);
    tell_number(particulars, checked.map(|reads| reads as usize))
}

// The owner of a package. The answer is 1 and the owner's position, or 0.
#[tactic(auto, unfolding(crate::specs::Host::owner_reply))]
#[unsafe(no_mangle)]
pub extern "C" fn saqhovune_find_module_for_package(
    set: &[u8],
    words: &[u64],
    pkg: &[u8],
    particulars: &mut [u64; 4],
) -> u64
    ensures { Told (owner_reply (find_module_for_package set.now words.now pkg.now)) particulars.new result }
{
    match find_module_for_package(set, words, pkg) {
        Ok(Some(i)) => answer_two(particulars, 1, i),
        Ok(None) => answer(particulars, 0),
        Err(e) => refuse(particulars, e),
    }
}

// What becomes of a name that a record queues.
ghost use Rattle.std.specs.Prelude.{◌≡◌, true, false, ◌≤◌};
ghost use Rattle.records.specs.Descriptor.{requirement_of};
ghost use Rattle.records.specs.Request.{Request, request_of, is_permitted};
ghost use Rattle.resolution.specs.Resolution.{leads as leadsTo};
ghost use Rattle.resolution.specs.Resolver.{is_met_before, want as wantOf, want_record, want_unfound, kind_for, Within};
ghost use Rattle.resolution.specs.Sources.{inputs_in};

use crate::modules::is_met_before;
use crate::resolver::Wanted;
use crate::row::Row;
use crate::sources::Sources;
use records::bytes::same;
use records::descriptor::{is_static, required};
use records::error::{Input, ModuleError};
use records::name::name_of;
use records::order::contains;
use records::record::Kind;
use records::request::is_permitted;
use records::sorted::find_in;

// Whether the request permits an absent name. Where that is known, `names` tells the names of its LM in order.
#[tactic(auto, using(crate::proofs::wanted::Laws::permits_laws))]
fn permits(sources: &Sources, name: &[u8]) -> bool
    requires { sources.now.phase.in_round ≡ false }
    ensures { result ≡ is_permitted (request_of sources.now.request.now) name.now }
{
    if !sources.phase.limited {
        return true;
    }
    if sources.phase.known {
        let names = sources.names;
        return same(name, b"java.base") || contains(sources.request, names, names.len(), name);
    }
    is_permitted(sources.request, name)
}

// Whether an absent name was met before the rounds. Where that is known, `names` tells the roots in order, and `needed` the names
// that the modules resolved before the rounds require and that are not static.
#[tactic(auto, using(crate::proofs::wanted::Laws::met_laws))]
fn is_met(sources: &Sources, name: &[u8]) -> bool
    requires { sources.now.phase.in_round ≡ true }
    ensures { result ≡ is_met_before (inputs_in sources.now) name.now }
{
    if sources.phase.known {
        let names = sources.names;
        let needed = sources.needed;
        return contains(sources.request, names, names.len(), name)
            || contains(sources.set, needed, needed.len(), name);
    }
    let before = sources.phase.before.min(sources.old.len());
    is_met_before(sources, &sources.old[..before], name)
}

// What becomes of an absent name that is not static.
#[tactic(auto, using(crate::proofs::wanted::Laws::absent_laws))]
fn want_absent(sources: &Sources, name: &[u8], error: ModuleError) -> Wanted
    ensures value { result ≡ want_unfound (inputs_in sources.now) name.now error }
    ensures within { Within sources.now.phase.count result }
{
    if sources.phase.in_round {
        if is_met(sources, name) {
            return Wanted::Pass;
        }
        return Wanted::Refuse(error);
    }
    if permits(sources, name) {
        if same(name, b"java.base") {
            return Wanted::Stop(ModuleError::JavaBaseNotFound);
        }
        return Wanted::Stop(error);
    }
    Wanted::Pass
}

// What becomes of a name, and the refusal where it is absent.
#[tactic(auto, using(crate::proofs::wanted::Laws::want_laws))]
pub fn want(sources: &Sources, name: &[u8], optional: bool, error: ModuleError) -> Wanted
    ensures value { result ≡ wantOf (inputs_in sources.now) name.now optional error }
    ensures within { Within sources.now.phase.count result }
{
    match find_in(
        sources.set,
        sources.starts,
        sources.phase.count,
        sources.index,
        name,
    ) {
        Some(i) => {
            let words = sources.phase.permitted;
            if (Row { words }).has(i) {
                return Wanted::Add(i);
            }
            Wanted::Pass
        }
        None => {
            if optional {
                return Wanted::Pass;
            }
            want_absent(sources, name, error)
        }
    }
}

// Whether the RQ with this body leads to its module: it is not static, or the request has an ST, as `statics` says.
#[tactic(auto, using(crate::proofs::wanted::Laws::leads_laws))]
fn leads(statics: bool, body: &[u8]) -> bool
    ensures { (rq : Request) → statics ≡ rq.has_static → result ≡ leadsTo rq (requirement_of body.now) }
{
    !is_static(body) || statics
}

// What becomes of the name in the record with this body at start: of the set an RQ, of the request an RT. One that does not lead
// is passed over.
#[tactic(auto, using(crate::proofs::wanted::Laws::record_laws))]
pub fn want_record(sources: &Sources, input: Input, body: &[u8], start: usize) -> Wanted
    requires start_bound { start ≤ 65535 }
    ensures value { result ≡ want_record (inputs_in sources.now) input body.now start }
    ensures within { Within sources.now.phase.count result }
{
    match input {
        Input::Set => {
            if leads(sources.phase.statics, body) {
                let name = required(body);
                let error = ModuleError::ModuleNotFound(Input::Set, start + 3, name.len());
                return want(sources, name, is_static(body), error);
            }
            Wanted::Pass
        }
        Input::Request => {
            let name = name_of(body);
            let error = ModuleError::ModuleNotFound(Input::Request, start + 1, name.len());
            want(sources, name, false, error)
        }
        Input::Packages => Wanted::Pass,
    }
}

// The kind of the records that name modules.
#[tactic(auto, unfolding(crate::specs::Resolver::kind_for))]
pub fn kind_for(input: Input) -> Kind
    ensures { result ≡ kind_for input }
{
    match input {
        Input::Set => Kind::Requires,
        Input::Request => Kind::Root,
        Input::Packages => Kind::Other,
    }
}

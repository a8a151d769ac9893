// The queue of the roots and what they lead to, then the rounds.
ghost use Rattle.std.specs.Prelude.{◌≡◌, ◌≤◌, length};
ghost use Rattle.resolution.specs.Resolver.{inputs_of, line_at, front_at, roots_at, first_at, start_on, resolve_at, Unused, FirstOf, Moved};
ghost use Rattle.resolution.specs.Sources.{inputs_in};
ghost use Rattle.resolution.specs.Known.{Tables};
ghost use Rattle.resolution.specs.Runs.{Ran};

use crate::limits::{is_limited, order_limits};
use crate::module_table::ModuleTable;
use crate::resolver::{Phase, Resolver};
use crate::rounds::make_rounds;
use crate::row::Row;
use crate::sources::Sources;
use crate::wanted::want;
use records::descriptor::has_named;
use records::error::{Input, ModuleError};
use records::record::Kind;
use records::request::has_static;

// java.base in front unless it is a root.
#[tactic(auto, using(crate::proofs::roots::Laws::front_laws))]
fn front(sources: &Sources, resolver: &mut Resolver)
    requires fresh { Unused sources.now.phase.count resolver.old.order resolver.old.queue }
    ensures { Moved sources.now.phase.count resolver.new.order resolver.new.queue (front_at (inputs_in sources.now)) }
{
    if has_named(sources.request, Kind::Root, b"java.base") {
        return;
    }
    let error = ModuleError::JavaBaseNotFound;
    let wanted = want(sources, b"java.base", false, error);
    resolver.enqueue(sources.phase.count, wanted);
}

// The queue of the roots. In this phase no module was resolved before the rounds.
#[tactic(auto, using(crate::proofs::roots::Laws::roots_laws))]
fn resolve_roots(sources: &Sources, resolver: &mut Resolver)
    requires fresh { Unused sources.now.phase.count resolver.old.order resolver.old.queue }
    requires request_len_bound { length sources.now.request.now ≤ 65535 }
    ensures { Moved sources.now.phase.count resolver.new.order resolver.new.queue (roots_at (inputs_in sources.now)) }
{
    front(sources, resolver);
    resolver.queue_records(sources, Input::Request, sources.request, 0);
}

// The modules that the roots lead to, before the rounds.
#[tactic(auto, using(crate::proofs::roots::Laws::first_laws))]
fn resolve_first(sources: &Sources, resolver: &mut Resolver, packages: &mut [u64])
    requires fresh { Unused sources.now.phase.count resolver.old.order resolver.old.queue }
    requires request_len_bound { length sources.now.request.now ≤ 65535 }
    requires set_len_bound { length sources.now.set.now ≤ 65535 }
    requires packages_len { length packages.old ≡ 1024 }
    ensures { Ran sources.now.phase.count sources.now.set.now sources.now.starts.now resolver.new.order packages.new resolver.new.queue (first_at (inputs_in sources.now)) }
{
    resolve_roots(sources, resolver);
    resolver.run(sources, packages);
}

// The first n entries of the order.
#[tactic(auto, using(crate::proofs::roots::Laws::first_of_laws))]
fn first_of(order: &[usize], n: usize) -> [usize; 512]
    requires n_bound { n ≤ 512 }
    requires n_in_bounds { n ≤ length order.now }
    ensures { FirstOf order.now n result }
{
    let mut out = [0usize; 512];
    out[..n].copy_from_slice(&order[..n]);
    out
}

// The queue of the roots, then the rounds, from this phase on: the modules resolved, in order, are the first `tail` positions. Where
// that is known, `names` tells which names are permitted.
fn resolve_from(
    table: &ModuleTable,
    request: &[u8],
    phase: Phase,
    names: &[usize],
    resolver: &mut Resolver,
)
    requires tables { Tables table.now.set.now request.now table.now.starts.now table.now.starts.now phase table.now.index.now names.now names.now }
    requires fresh { Unused phase.count resolver.old.order resolver.old.queue }
    requires request_len_bound { length request.now ≤ 65535 }
    requires set_len_bound { length table.now.set.now ≤ 65535 }
    ensures { line_at resolver.new.order resolver.new.queue ≡ resolve_at (inputs_of table.now.set.now request.now table.now.starts.now table.now.starts.now phase) }
{
    let mut packages = [0u64; 1024];
    let sources = Sources {
        set: table.set,
        request,
        starts: table.starts,
        old: table.starts,
        phase,
        index: table.index,
        names,
        needed: names,
    };
    resolve_first(&sources, resolver, &mut packages);
    let before = resolver.queue.tail;
    let old = first_of(&resolver.order, before);
    let next = Phase {
        in_round: true,
        before,
        known: false,
        ..phase
    };
    let later = Sources {
        set: table.set,
        request,
        starts: table.starts,
        old: &old,
        phase: next,
        index: table.index,
        names: table.starts,
        needed: table.starts,
    };
    make_rounds(&later, resolver, &mut packages);
}

// The same for a request with an LM, whose names come into the array.
#[tactic(auto, using(crate::proofs::roots::Laws::listed_laws))]
fn resolve_listed(
    table: &ModuleTable,
    request: &[u8],
    permitted: Row,
    names: &mut [usize],
    resolver: &mut Resolver,
)
    requires fresh { Unused table.now.count resolver.old.order resolver.old.queue }
    requires request_len_bound { length request.now ≤ 65535 }
    requires set_len_bound { length table.now.set.now ≤ 65535 }
    ensures { line_at resolver.new.order resolver.new.queue ≡ resolve_at (start_on table.now.set.now request.now table.now.count table.now.starts.now permitted.words) }
{
    let listed = order_limits(request, names);
    let words = permitted.words;
    let phase = Phase {
        count: table.count,
        permitted: words,
        in_round: false,
        before: 0,
        statics: has_static(request),
        limited: true,
        known: listed.is_some(),
    };
    resolve_from(
        table,
        request,
        phase,
        &names[..listed.unwrap_or(0)],
        resolver,
    );
}

// The same, with an array for as many names as an LM has.
fn resolve_limited(table: &ModuleTable, request: &[u8], permitted: Row, resolver: &mut Resolver)
    requires fresh { Unused table.now.count resolver.old.order resolver.old.queue }
    requires request_len_bound { length request.now ≤ 65535 }
    requires set_len_bound { length table.now.set.now ≤ 65535 }
    ensures { line_at resolver.new.order resolver.new.queue ≡ resolve_at (start_on table.now.set.now request.now table.now.count table.now.starts.now permitted.words) }
{
    let mut names = [0usize; 32768];
    resolve_listed(table, request, permitted, &mut names, resolver);
}

// The queue of the roots, then the rounds.
#[tactic(auto, using(crate::proofs::roots::Laws::free_laws))]
pub fn resolve_order(table: &ModuleTable, request: &[u8], permitted: Row, resolver: &mut Resolver)
    requires fresh { Unused table.now.count resolver.old.order resolver.old.queue }
    requires request_len_bound { length request.now ≤ 65535 }
    requires set_len_bound { length table.now.set.now ≤ 65535 }
    ensures { line_at resolver.new.order resolver.new.queue ≡ resolve_at (start_on table.now.set.now request.now table.now.count table.now.starts.now permitted.words) }
{
    if is_limited(request) {
        resolve_limited(table, request, permitted, resolver);
        return;
    }
    let words = permitted.words;
    let phase = Phase {
        count: table.count,
        permitted: words,
        in_round: false,
        before: 0,
        statics: has_static(request),
        limited: false,
        known: false,
    };
    resolve_from(table, request, phase, table.starts, resolver);
}

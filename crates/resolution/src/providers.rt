// The providers of a round: the modules that provide a service which resolved modules use.
ghost use Rattle.std.specs.Prelude.{◌≡◌, false, [], map, ◌<◌, take};
ghost use Rattle.records.specs.Name.{name_of};
ghost use Rattle.records.specs.Record.{bodies};
ghost use Rattle.records.specs.declared.record.Kind.TheVariants as Kind;
ghost use Rattle.resolution.specs.Lists.{any};
ghost use Rattle.resolution.specs.Resolver.{inputs_of, has_named, line_at, pick_line, queued, is_provider_at, offered_at, provide_at, Moved};
ghost use Rattle.resolution.specs.Filter.{asked};
ghost use Rattle.resolution.specs.Runs.{Unbound, Binding};
ghost use Rattle.resolution.specs.Table.{NamesTold};
ghost use Rattle.resolution.specs.declared.table.Told.TheVariants.{Services};
ghost use Rattle.resolution.specs.declared.resolver.Wanted.TheVariants as Wanted;

use crate::modules::is_used;
use crate::resolver::{Resolver, Wanted};
use crate::row::Row;
use crate::sources::Sources;
use crate::table::{Told, order_names};
use records::name::name_of;
use records::order::contains;
use records::record::{Cursor, Kind};

// Whether one of the modules at the positions uses this service. The table tells the services that they use; where it had no room for
// all, the modules are asked.
#[tactic(auto, using(crate::proofs::providers::Services::service_laws))]
fn is_service(
    sources: &Sources,
    positions: &[usize],
    table: &[usize],
    services: Option<usize>,
    name: &[u8],
) -> bool
    requires { NamesTold Services sources.now.set.now sources.now.starts.now positions.now table.now services }
    ensures { result ≡ has_named (asked sources.now.set.now sources.now.starts.now) Kind.Uses positions.now name.now }
{
    match services {
        Some(count) => contains(sources.set, table, count, name),
        None => is_used(sources, positions, name),
    }
}

// Whether this block provides such a service.
#[tactic(auto, using(crate::proofs::providers::Services::provides_laws))]
fn provides_used(
    sources: &Sources,
    positions: &[usize],
    table: &[usize],
    services: Option<usize>,
    b: &[u8],
) -> bool
    requires { NamesTold Services sources.now.set.now sources.now.starts.now positions.now table.now services }
    ensures { result ≡ any (has_named (asked sources.now.set.now sources.now.starts.now) Kind.Uses positions.now) (map name_of (bodies Kind.Provides b.now)) }
{
    let mut c = Cursor { at: 0 };
    while let Some(span) = c.next(b, Kind::Provides) {
        let name = name_of(span.of(b));
        if is_service(sources, positions, table, services, name) {
            return true;
        }
        c = span.next;
    }
    false
}

// The module at i is permitted and not hidden, and provides such a service.
#[tactic(auto, using(crate::proofs::providers::Laws::bound_laws))]
fn is_bound(
    sources: &Sources,
    positions: &[usize],
    table: &[usize],
    services: Option<usize>,
    i: usize,
) -> bool
    requires { NamesTold Services sources.now.set.now sources.now.starts.now positions.now table.now services }
    ensures { result ≡ is_provider_at (inputs_of sources.now.set.now [] sources.now.starts.now [] sources.now.phase) positions.now i }
{
    let words = sources.phase.permitted;
    (Row { words }).has(i) && provides_used(sources, positions, table, services, sources.block(i))
}

// The module at i is to be queued: it provides such a service and is not there. The providers of services that the modules before
// number `from` use are there.
#[tactic(auto, using(crate::proofs::providers::Laws::due_laws))]
fn is_due(
    sources: &Sources,
    resolver: &Resolver,
    from: usize,
    to: usize,
    table: &[usize],
    services: Option<usize>,
    i: usize,
) -> bool
    requires binding { Binding sources.now.phase sources.now.set.now sources.now.starts.now resolver.now.order from to table.now services resolver.now.queue }
    requires i_lt_count { i < sources.now.phase.count }
    ensures { offered_at (inputs_of sources.now.set.now [] sources.now.starts.now [] sources.now.phase) (take to resolver.now.order) i (line_at resolver.now.order resolver.now.queue) ≡ pick_line result (queued (Wanted.Add i) (line_at resolver.now.order resolver.now.queue)) (line_at resolver.now.order resolver.now.queue) }
{
    !resolver.is_queued(sources.phase.count, i)
        && is_bound(sources, &resolver.order[from..to], table, services, i)
}

// The module at i is queued, if it is to be.
#[tactic(auto, using(crate::proofs::providers::Laws::offer_laws))]
fn offer(
    sources: &Sources,
    resolver: &mut Resolver,
    from: usize,
    to: usize,
    table: &[usize],
    services: Option<usize>,
    i: usize,
)
    requires binding { Binding sources.now.phase sources.now.set.now sources.now.starts.now resolver.old.order from to table.now services resolver.old.queue }
    requires i_lt_count { i < sources.now.phase.count }
    ensures { Moved sources.now.phase.count resolver.new.order resolver.new.queue (offered_at (inputs_of sources.now.set.now [] sources.now.starts.now [] sources.now.phase) (take to resolver.old.order) i (line_at resolver.old.order resolver.old.queue)) }
{
    if is_due(sources, resolver, from, to, table, services, i) {
        resolver.enqueue(sources.phase.count, Wanted::Add(i));
    }
}

// The providers of a round: the modules of the set that are permitted and not hidden, and provide a service that a resolved
// module uses.
#[tactic(auto, using(crate::proofs::providers::Laws::provide_laws))]
fn provide(
    sources: &Sources,
    resolver: &mut Resolver,
    from: usize,
    table: &[usize],
    services: Option<usize>,
)
    requires { Binding sources.now.phase sources.now.set.now sources.now.starts.now resolver.old.order from resolver.old.queue.head table.now services resolver.old.queue }
    ensures { Moved sources.now.phase.count resolver.new.order resolver.new.queue (provide_at (inputs_of sources.now.set.now [] sources.now.starts.now [] sources.now.phase) (line_at resolver.old.order resolver.old.queue)) }
{
    let to = resolver.queue.head;
    for i in 0..sources.phase.count {
        offer(sources, resolver, from, to, table, services, i);
    }
}

// The providers of a round are queued. Those of services that the first `bound` modules use are there; and nothing is to be done
// where every module of the set is.
#[tactic(auto, using(crate::proofs::providers::Laws::bind_laws))]
pub fn bind(sources: &Sources, resolver: &mut Resolver, table: &mut [usize], bound: usize)
    requires { Unbound sources.now.phase sources.now.set.now sources.now.starts.now resolver.old.order bound resolver.old.queue }
    ensures { Moved sources.now.phase.count resolver.new.order resolver.new.queue (provide_at (inputs_of sources.now.set.now [] sources.now.starts.now [] sources.now.phase) (line_at resolver.old.order resolver.old.queue)) }
{
    if sources.phase.count == resolver.queue.tail {
        return;
    }
    let services = order_names(
        sources.set,
        sources.starts,
        &resolver.order[bound..resolver.queue.head],
        Told::Services,
        table,
    );
    provide(sources, resolver, bound, table, services);
}

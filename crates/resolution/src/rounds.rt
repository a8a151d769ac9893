// The rounds: the providers of services that resolved modules use, and what they lead to.
ghost use Rattle.std.specs.Prelude.{◌≡◌, true, suc, ◌≤◌, length};
ghost use Rattle.resolution.specs.Resolver.{line_at, is_done, round_at, rounds_at, Moved};
ghost use Rattle.resolution.specs.Sources.{inputs_in, LaterIn};
ghost use Rattle.resolution.specs.Runs.{Running, Between, Rounded};

use crate::limits::order_roots;
use crate::providers::bind;
use crate::resolver::{Phase, Resolver, is_done};
use crate::sources::Sources;
use crate::table::{Told, order_names};

// One round: the providers, then the queue.
fn round(
    sources: &Sources,
    resolver: &mut Resolver,
    packages: &mut [u64],
    table: &mut [usize],
    bound: usize,
)
    requires between { Between sources.now.phase sources.now.set.now sources.now.starts.now resolver.old.order packages.old bound resolver.old.queue }
    requires halt_value { is_done resolver.old.queue.halt ≡ true }
    ensures { Rounded sources.now.phase sources.now.set.now sources.now.starts.now resolver.new.order packages.new resolver.old.queue.head resolver.new.queue (round_at (inputs_in sources.now) (line_at resolver.old.order resolver.old.queue)) }
{
    bind(sources, resolver, table, bound);
    resolver.run(sources, packages);
}

// Round after round, until none finds a provider or there is a refusal.
#[tactic(auto, using(crate::proofs::rounds::Laws::rounds_laws))]
fn rounds(sources: &Sources, resolver: &mut Resolver, packages: &mut [u64], table: &mut [usize])
    requires between { Between sources.now.phase sources.now.set.now sources.now.starts.now resolver.old.order packages.old 0 resolver.old.queue }
    ensures { Moved sources.now.phase.count resolver.new.order resolver.new.queue (rounds_at (inputs_in sources.now) (suc sources.now.phase.count) (line_at resolver.old.order resolver.old.queue)) }
{
    let mut bound: usize = 0;
    while is_done(resolver.queue) {
        let from = resolver.queue.head;
        round(sources, resolver, packages, table, bound);
        bound = from;
        if resolver.queue.head == from {
            return;
        }
    }
}

// The same, with a table for the services of a round. A set of up to 768 bytes has room for fewer than 128.
fn all_rounds(sources: &Sources, resolver: &mut Resolver, packages: &mut [u64])
    requires running { Running sources.now.phase.count sources.now.set.now sources.now.starts.now resolver.old.order packages.old resolver.old.queue }
    ensures { Moved sources.now.phase.count resolver.new.order resolver.new.queue (rounds_at (inputs_in sources.now) (suc sources.now.phase.count) (line_at resolver.old.order resolver.old.queue)) }
{
    if sources.set.len() <= 768 {
        let mut table = [0usize; 128];
        rounds(sources, resolver, packages, &mut table);
        return;
    }
    let mut table = [0usize; 8192];
    rounds(sources, resolver, packages, &mut table);
}

// The rounds, where these tables tell which absent names were met before.
#[tactic(auto, using(crate::proofs::rounds::Laws::told_laws))]
fn told_rounds(
    sources: &Sources,
    roots: &mut [usize],
    needed: &mut [usize],
    resolver: &mut Resolver,
    packages: &mut [u64],
)
    requires later { LaterIn sources.now }
    requires running { Running sources.now.phase.count sources.now.set.now sources.now.starts.now resolver.old.order packages.old resolver.old.queue }
    requires in_bounds { 16384 ≤ length roots.old }
    ensures { Moved sources.now.phase.count resolver.new.order resolver.new.queue (rounds_at (inputs_in sources.now) (suc sources.now.phase.count) (line_at resolver.old.order resolver.old.queue)) }
{
    let n = order_roots(sources.request, roots);
    let listed = order_names(
        sources.set,
        sources.starts,
        &sources.old[..sources.phase.before],
        Told::Requirements,
        needed,
    );
    let phase = Phase {
        limited: true,
        known: listed.is_some(),
        ..sources.phase
    };
    let told = Sources {
        set: sources.set,
        request: sources.request,
        starts: sources.starts,
        old: sources.old,
        phase,
        index: sources.index,
        names: &roots[..n],
        needed: &needed[..listed.unwrap_or(0)],
    };
    all_rounds(&told, resolver, packages);
}

// The rounds of a request with an LM, with tables for as many roots and requirements as there are.
fn limited_rounds(sources: &Sources, resolver: &mut Resolver, packages: &mut [u64])
    requires later { LaterIn sources.now }
    requires running { Running sources.now.phase.count sources.now.set.now sources.now.starts.now resolver.old.order packages.old resolver.old.queue }
    ensures { Moved sources.now.phase.count resolver.new.order resolver.new.queue (rounds_at (inputs_in sources.now) (suc sources.now.phase.count) (line_at resolver.old.order resolver.old.queue)) }
{
    let mut roots = [0usize; 16384];
    let mut needed = [0usize; 7282];
    told_rounds(sources, &mut roots, &mut needed, resolver, packages);
}

// The rounds. Without an LM no absent name was met before: it would have ended the queue.
pub fn make_rounds(sources: &Sources, resolver: &mut Resolver, packages: &mut [u64])
    requires later { LaterIn sources.now }
    requires running { Running sources.now.phase.count sources.now.set.now sources.now.starts.now resolver.old.order packages.old resolver.old.queue }
    ensures { Moved sources.now.phase.count resolver.new.order resolver.new.queue (rounds_at (inputs_in sources.now) (suc sources.now.phase.count) (line_at resolver.old.order resolver.old.queue)) }
{
    if sources.phase.limited {
        limited_rounds(sources, resolver, packages);
        return;
    }
    all_rounds(sources, resolver, packages);
}

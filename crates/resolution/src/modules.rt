// Questions about the modules at some positions of a set.
ghost use Rattle.std.specs.Prelude.{◌≡◌, true, not, ◌&&◌, ◌||◌, ◌+◌, ◌≤◌, length, get_or, take};
ghost use Rattle.std.proofs.Math.Option.{some};
ghost use mathlib.Core.List.{map, flat_map};
ghost use Rattle.records.specs.Name.{name_of, mem_name};
ghost use Rattle.records.specs.Order.{name_in, is_ordered};
ghost use Rattle.records.specs.Record.{bodies};
ghost use Rattle.records.specs.declared.record.Kind.TheVariants as Kind;
ghost use Rattle.resolution.specs.Lists.{keep};
ghost use Rattle.resolution.specs.Owner.{least};
ghost use Rattle.resolution.specs.Resolver.{names_of, has_named, requires_name, is_met_before, split_of, split_at};
ghost use Rattle.resolution.specs.Filter.{MarkedAll, Covers, least_of, lesser_of, least_in, asked, asked_before, found_of, position_in, first_named, requires_in, is_required, is_less};

use crate::filter::mark_names;
use crate::resolver::Halt;
use crate::sources::Sources;
use records::bytes::{before, same};
use records::descriptor::{has_named, is_static, required};
use records::error::ModuleError;
use records::name::name_of;
use records::order::{contains, name_in, ordered_packages};
use records::record::{Cursor, Kind, find_body};
use records::set::entry;

// The first of the positions whose module has a record of this kind with this name in front.
#[tactic(auto, using(crate::proofs::modules::Laws::with_laws))]
fn first_with(sources: &Sources, positions: &[usize], kind: Kind, name: &[u8]) -> Option<usize>
    ensures { result ≡ found_of (first_named (asked sources.now.set.now sources.now.starts.now) kind positions.now name.now) }
{
    for &i in positions {
        if has_named(sources.block(i), kind, name) {
            return Some(i);
        }
    }
    None
}

// The position, 0 where there is none.
#[tactic(auto, using(crate::proofs::modules::Split::position_laws))]
fn position(found: Option<usize>) -> usize
    ensures { result ≡ position_in found }
{
    match found {
        Some(i) => i,
        None => 0,
    }
}

// Where module i ends, 0 where there is none.
#[tactic(auto, using(crate::proofs::modules::Split::end_none))]
pub fn end_of(starts: &[usize], i: usize) -> usize
    ensures { result ≡ get_or starts.now (i + 1) 0 }
{
    if starts.len() <= i {
        return 0;
    }
    entry(starts, i + 1)
}

// The refusal of the module at p for this package of its, which one of the modules at the positions has.
#[tactic(auto, using(crate::proofs::modules::Split::refusal_laws))]
fn refusal(sources: &Sources, positions: &[usize], p: usize, name: &[u8]) -> Halt
    requires { length sources.now.set.now ≤ 65535 }
    ensures { result ≡ split_of (asked sources.now.set.now sources.now.starts.now) positions.now p (some name.now) }
{
    let owner = position(first_with(sources, positions, Kind::Package, name));
    match find_body(sources.block(p), Kind::Package, &[name]) {
        Some(span) => {
            let at = entry(sources.starts, p) + span.start + 1;
            Halt::Refused(ModuleError::SplitPackage(at, name.len(), owner, p))
        }
        None => Halt::Refused(ModuleError::SplitPackage(1, name.len(), owner, p)),
    }
}

// Whether the name stands before the least so far: the name of an entry in a table of names of the set; None where there is none yet.
#[tactic(auto, using(crate::proofs::modules::Shared::less_laws))]
fn is_less(set: &[u8], least: Option<usize>, name: &[u8]) -> bool
    ensures { result ≡ is_less set.now least name.now }
{
    match least {
        Some(entry) => before(name, name_in(set, entry)),
        None => true,
    }
}

// Whether the table has this package, and it stands before the least so far.
#[tactic(auto, using(crate::proofs::modules::Shared::lesser_laws))]
fn is_lesser(
    set: &[u8],
    b: &[u8],
    table: &[usize],
    count: usize,
    least: Option<usize>,
    name: &[u8],
) -> bool
    requires count_in_bounds { count ≤ length table.now }
    requires table_value { is_ordered (map (name_in b.now) (take count table.now)) ≡ true }
    ensures { result ≡ (mem_name name.now (map (name_in b.now) (take count table.now)) && is_less set.now least name.now) }
{
    contains(b, table, count, name) && is_less(set, least, name)
}

// The least so far, or a package of the module at i that stands before it and that the table has.
#[tactic(auto, using(crate::proofs::modules::Shared::scan_laws))]
fn least_in(
    sources: &Sources,
    i: usize,
    b: &[u8],
    table: &[usize],
    count: usize,
    least: Option<usize>,
) -> Option<usize>
    requires set_len_bound { length sources.now.set.now ≤ 65535 }
    requires count_in_bounds { count ≤ length table.now }
    requires table_value { is_ordered (map (name_in b.now) (take count table.now)) ≡ true }
    ensures { least_of sources.now.set.now result ≡ lesser_of (least_of sources.now.set.now least) (least_in (map (name_in b.now) (take count table.now)) (names_of (asked sources.now.set.now sources.now.starts.now) Kind.Package i)) }
{
    let source = sources.block(i);
    let from = entry(sources.starts, i);
    let mut c = Cursor { at: 0 };
    let mut low = least;
    while let Some(span) = c.next(source, Kind::Package) {
        let name = name_of(span.of(source));
        c = span.next;
        if is_lesser(sources.set, b, table, count, low, name) {
            low = Some((from + span.start + 1) * 65536 + name.len());
        }
    }
    low
}

// The least of the packages of the modules at the positions that the table has.
#[tactic(auto, using(crate::proofs::modules::Shared::shared_laws))]
fn least_shared(
    sources: &Sources,
    positions: &[usize],
    b: &[u8],
    table: &[usize],
    count: usize,
) -> Option<usize>
    requires set_len_bound { length sources.now.set.now ≤ 65535 }
    requires count_in_bounds { count ≤ length table.now }
    requires table_value { is_ordered (map (name_in b.now) (take count table.now)) ≡ true }
    ensures { least_of sources.now.set.now result ≡ least_in (map (name_in b.now) (take count table.now)) (flat_map (names_of (asked sources.now.set.now sources.now.starts.now) Kind.Package) positions.now) }
{
    let mut least: Option<usize> = None;
    for &i in positions {
        least = least_in(sources, i, b, table, count, least);
    }
    least
}

// The test of the packages of this block, which is that of the module at p: the least in byte order of those that one of the
// modules at the positions has. The block's are put in order, and each of theirs is looked for.
#[tactic(auto, using(crate::proofs::modules::Shared::split_laws))]
fn find_split_in(sources: &Sources, positions: &[usize], p: usize, b: &[u8]) -> Halt
    requires set_len_bound { length sources.now.set.now ≤ 65535 }
    requires b_len_bound { length b.now ≤ 65535 }
    ensures { result ≡ split_of (asked sources.now.set.now sources.now.starts.now) positions.now p (least (keep (has_named (asked sources.now.set.now sources.now.starts.now) Kind.Package positions.now) (map name_of (bodies Kind.Package b.now)))) }
{
    let mut table = [0usize; 16384];
    let count = ordered_packages(b, &mut table);
    match least_shared(sources, positions, b, &table, count) {
        Some(entry) => refusal(sources, positions, p, name_in(sources.set, entry)),
        None => Halt::Open,
    }
}

// The test of the packages of the module at p, where those at the positions are resolved. The filter marks their packages, and
// is left with this module's marked too: where none of them was marked before, no other module has one.
#[tactic(auto, using(crate::proofs::modules::Shared::test_laws))]
pub fn find_split(sources: &Sources, positions: &[usize], filter: &mut [u64], p: usize) -> Halt
    requires set_len_bound { length sources.now.set.now ≤ 65535 }
    requires filter_len { length filter.old ≡ 1024 }
    requires covers { Covers (asked sources.now.set.now sources.now.starts.now) Kind.Package filter.old positions.now }
    ensures value { result ≡ split_at (asked sources.now.set.now sources.now.starts.now) positions.now p }
    ensures marked_all { MarkedAll filter.old (names_of (asked sources.now.set.now sources.now.starts.now) Kind.Package p) filter.new }
{
    let b = sources.block(p);
    if mark_names(filter, b, Kind::Package) {
        return find_split_in(sources, positions, p, b);
    }
    Halt::Open
}

// Whether one of the modules at the positions uses this service.
pub fn is_used(sources: &Sources, positions: &[usize], name: &[u8]) -> bool
    ensures { result ≡ has_named (asked sources.now.set.now sources.now.starts.now) Kind.Uses positions.now name.now }
{
    positions
        .iter()
        .any(|&i| has_named(sources.block(i), Kind::Uses, name))
}

// Whether the body of an RQ requires this name and is not static.
#[tactic(auto, using(crate::proofs::modules::Laws::requires_laws))]
fn requires_name(body: &[u8], name: &[u8]) -> bool
    ensures { result ≡ requires_name name.now body.now }
{
    !is_static(body) && same(required(body), name)
}

// Whether the block has such a requirement.
#[tactic(auto, using(crate::proofs::modules::Laws::block_laws))]
fn requires_in(b: &[u8], name: &[u8]) -> bool
    ensures { result ≡ requires_in b.now name.now }
{
    let mut c = Cursor { at: 0 };
    while let Some(span) = c.next(b, Kind::Requires) {
        if requires_name(span.of(b), name) {
            return true;
        }
        c = span.next;
    }
    false
}

// Whether a module at one of the positions has such a requirement.
fn is_required(sources: &Sources, positions: &[usize], name: &[u8]) -> bool
    ensures { result ≡ is_required (asked sources.now.set.now sources.now.starts.now) positions.now name.now }
{
    positions
        .iter()
        .any(|&i| requires_in(sources.block(i), name))
}

// Whether an absent name was met before the rounds: it is a root, or such a requirement of one of the modules at the
// positions in `old`.
#[tactic(auto, using(crate::proofs::modules::Laws::met_laws))]
pub fn is_met_before(sources: &Sources, old: &[usize], name: &[u8]) -> bool
    ensures { result ≡ is_met_before (asked_before sources.now.set.now sources.now.request.now sources.now.starts.now old.now) name.now }
{
    has_named(sources.request, Kind::Root, name) || is_required(sources, old, name)
}

// Tables of names in byte order, which records of modules tell: the services that they use, or what they require and is not static.
ghost use Rattle.std.specs.Prelude.{◌≡◌, true, map, ◌≤◌, ◌<◌, length, take, drop};
ghost use Rattle.records.specs.Order.{name_in, is_ordered};
ghost use Rattle.resolution.specs.Table.{kind_of, NamePut, NamesAdded, NamesTold};

use crate::modules::end_of;
use records::bytes::{head, part};
use records::descriptor::{is_static, required};
use records::name::name_of;
use records::order::insert;
use records::record::{Cursor, Kind};
use records::set::entry;

// What the records of modules tell: the services that they use, or what they require and is not static.
#[derive(Clone, Copy)]
pub enum Told {
    Services,
    Requirements,
}

impl Told {
    // The kind of the records that tell the names.
    fn kind(self) -> Kind
        ensures { result ≡ kind_of self }
    {
        match self {
            Told::Services => Kind::Uses,
            Told::Requirements => Kind::Requires,
        }
    }
}

// Puts the name that the record with its body at `start` tells where it belongs among the first `count`: the service of a US, the
// name of an RQ that is not static.
fn put_name(
    set: &[u8],
    to: usize,
    start: usize,
    len: usize,
    told: Told,
    table: &mut [usize],
    count: usize,
) -> usize
    requires set_len_bound { length set.now ≤ 65535 }
    requires start_bound { start ≤ 65535 }
    requires count_in_bounds { count < length table.old }
    requires table_value { is_ordered (map (name_in set.now) (take count table.old)) ≡ true }
    ensures { NamePut told set.now (take len (drop start (take to set.now))) table.old count table.new result }
{
    let body = part(head(set, to), start, len);
    match told {
        Told::Services => {
            let name = name_of(body);
            insert(set, table, count, (start + 1) * 65536 + name.len())
        }
        Told::Requirements => {
            if is_static(body) {
                return count;
            }
            let name = required(body);
            insert(set, table, count, (start + 3) * 65536 + name.len())
        }
    }
}

// Puts the names that the records of the set from `from` up to `to` tell in order among the first `before` of the table. Returns how many
// it tells then; None where it has no room for all.
fn add_names(
    set: &[u8],
    from: usize,
    to: usize,
    told: Told,
    table: &mut [usize],
    before: usize,
) -> Option<usize>
    requires set_len_bound { length set.now ≤ 65535 }
    requires count_in_bounds { before ≤ length table.old }
    requires table_value { is_ordered (map (name_in set.now) (take before table.old)) ≡ true }
    ensures { NamesAdded told set.now (drop from (take to set.now)) table.old before table.new result }
{
    let source = head(set, to);
    let kind = told.kind();
    let mut c = Cursor { at: from };
    let mut count = before;
    while let Some(span) = c.next(source, kind) {
        if table.len() <= count {
            return None;
        }
        count = put_name(set, to, span.start, span.len, told, table, count);
        c = span.next;
    }
    Some(count)
}

// Puts the names that the modules at the positions tell in order into the table. Returns how many it tells; None where it has no room
// for all.
#[tactic(auto, using(crate::proofs::table::Laws::order_laws))]
pub fn order_names(
    set: &[u8],
    starts: &[usize],
    positions: &[usize],
    told: Told,
    table: &mut [usize],
) -> Option<usize>
    requires set_len_bound { length set.now ≤ 65535 }
    ensures { NamesTold told set.now starts.now positions.now table.new result }
{
    let mut count = 0;
    for &i in positions {
        count = add_names(set, entry(starts, i), end_of(starts, i), told, table, count)?;
    }
    Some(count)
}

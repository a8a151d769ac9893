// The steps around the resolver: the row of positions permitted and not hidden before it, the words of the configuration after it.
ghost use Rattle.std.specs.Prelude.{◌≡◌, ◌∷◌, ◌≤◌, length, take};
ghost use Rattle.records.specs.Name.{java_base, names_of, list_of};
ghost use Rattle.records.specs.Finder.{find_name, is_at};
ghost use Rattle.resolution.specs.ModuleTable.{names_in};
ghost use Rattle.resolution.specs.Readability.{WithMore, Holding};
ghost use Rattle.resolution.specs.Configuration.{word_count};
ghost use Rattle.resolution.specs.Configure.{is_found_by, MemberRow, Configured, PermittedRow};

use crate::configuration::{MEMBER_WORDS, WORDS, add_read};
use crate::graph::put_row;
use crate::module_table::ModuleTable;
use crate::readability::read_edges;
use crate::row::Row;
use crate::visible::visible;
use records::bytes::{be16, tail};
use records::name::{after_name, name_of};
use records::record::{Cursor, Kind};

// The row with the position more that this name finds.
fn with_named(table: &ModuleTable, name: &[u8], row: Row) -> Row
    ensures { WithMore row.words (is_at (find_name (names_in table.now) name.now 0)) result.words }
{
    match table.find(name) {
        Some(i) => row.with(i),
        None => row,
    }
}

// The row with the positions more that the first n names of s find.
fn with_names(table: &ModuleTable, s: &[u8], n: usize, row: Row) -> Row
    ensures { WithMore row.words (is_found_by (names_in table.now) (names_of n s.now)) result.words }
{
    let mut out = row;
    let mut rest = s;
    for _ in 0..n {
        out = with_named(table, name_of(rest), out);
        rest = after_name(rest);
    }
    out
}

// The positions that java.base and the names of the list find.
fn permitted_by(table: &ModuleTable, list: &[u8]) -> Row
    ensures { Holding result.words (is_found_by (names_in table.now) (java_base ∷ list_of list.now)) }
{
    let base = with_named(table, b"java.base", Row::empty());
    let n = be16(list, 0);
    let names = tail(list, 2);
    with_names(table, names, n, base)
}

// The positions of the set whose modules the request permits and that are not hidden: without an LM the visible ones. Each name of the
// LM is looked up once.
pub fn permitted(table: &ModuleTable, request: &[u8]) -> Row
    ensures { PermittedRow table.now.set.now request.now table.now.count result.words }
{
    let c = Cursor { at: 0 };
    match c.next(request, Kind::LimitModules) {
        Some(span) => permitted_by(table, span.of(request)),
        None => visible(table),
    }
}

// The first n positions of the order, as a row. Those from 512 on are left out.
fn member_row(order: &[usize], n: usize) -> Row
    ensures { MemberRow (take n order.now) result.words }
{
    let mut words = [0u64; 8];
    for i in &order[..n.min(order.len())] {
        add_read(&mut words, *i);
    }
    Row { words }
}

// Writes the configuration of the modules at the first n positions of the order: the members, then the rows, each where it lies.
pub fn configure(table: &ModuleTable, request: &[u8], order: &[usize], n: usize, words: &mut [u64])
    requires word_count_in_bounds { word_count ≤ length words.old }
    ensures { Configured table.now.set.now request.now table.now.count (take n order.now) words.old words.new }
{
    let members = member_row(order, n);
    put_row(words, 0, members);
    read_edges(table, request, members, &mut words[MEMBER_WORDS..WORDS]);
}

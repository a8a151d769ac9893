// The graph of reads: who reads a module, and what its reads lead to. In every function n is the number of the set's modules.
ghost use Rattle.std.specs.Prelude.{◌≡◌, true, ◌||◌, ◌≤◌, length, Ok};
ghost use Rattle.records.specs.Set.{check_set, modules};
ghost use Rattle.resolution.specs.Configuration.{word_count, edge_bit, unnamed_bit};
ghost use Rattle.resolution.specs.Lookup.{Lookup};
ghost use Rattle.resolution.specs.Observed.{has_member};
ghost use Rattle.resolution.specs.Row.{holds};
ghost use Rattle.resolution.specs.Readability.{Holding};
ghost use Rattle.access.specs.Access.{passes};
ghost use Rattle.access.specs.ReadGraph.{any_below, readers_of, transitive_reads};
ghost use Rattle.access.specs.GraphSteps.{Told, reader_at, reader_below, counts_at, counts_in, Masked, spread_at, Swept, Gathered, unnamed_in, Onward};

use crate::members::member;
use records::bytes::same;
use records::error::ModuleError;
use records::set::check_set_with;
use records::sorted::INDEX_LENGTH;
use resolution::configuration::{WORDS, members, reads, reads_unnamed, row_of};
use resolution::module_table::ModuleTable;
use resolution::row::Row;
use resolution::visible::visible;

// A row of positions in the set, and whether ALL-UNNAMED is among them.
#[derive(Clone, Copy)]
pub struct GraphAnswer {
    pub row: [u64; 8],
    pub unnamed: bool,
}

fn tell(row: Row, unnamed: bool) -> GraphAnswer
    ensures { Told row.words unnamed result }
{
    let words = row.words;
    GraphAnswer {
        row: words,
        unnamed,
    }
}

// An edge from i to what is found.
#[tactic(auto, unfolding(crate::specs::Access::passes))]
fn reads_found(words: &[u64], i: usize, found: Option<usize>) -> bool
    ensures { result ≡ passes (edge_bit words.now i) found }
{
    match found {
        Some(j) => reads(words, i, j),
        None => false,
    }
}

// The member at k reads what is found or, if asked, ALL-UNNAMED.
#[tactic(auto, unfolding(crate::specs::GraphSteps::reader_at))]
fn is_reader(words: &[u64], members: Row, found: Option<usize>, asked: bool, k: usize) -> bool
    ensures { result ≡ reader_at members.words words.now found asked k }
{
    members.has(k) && (reads_found(words, k, found) || (asked && reads_unnamed(words, k)))
}

// The row of such members.
#[tactic(auto, using(crate::proofs::graph::Rows::readers_laws))]
fn readers(words: &[u64], members: Row, found: Option<usize>, asked: bool, n: usize) -> Row
    requires { n ≤ 512 }
    ensures { Holding result.words (reader_below n members.words words.now found asked) }
{
    let mut row = Row::empty();
    for k in 0..n {
        if is_reader(words, members, found, asked, k) {
            row = row.with(k);
        }
    }
    row
}

// The row, and what i reads if it is in the row and a member.
#[tactic(auto, unfolding(crate::specs::GraphSteps::spread_at))]
fn spread(words: &[u64], members: Row, row: Row, i: usize) -> Row
    ensures { Holding result.words (spread_at row.words members.words words.now i) }
{
    if row.has(i) && members.has(i) {
        return row.union(row_of(words, i));
    }
    row
}

// The row, and what its members read.
#[tactic(auto, using(crate::proofs::graph::Leads::sweep_laws))]
fn sweep(words: &[u64], members: Row, row: Row, n: usize) -> Row
    ensures { Swept n members.words words.now row.words result.words }
{
    let mut out = row;
    for k in 0..n {
        out = spread(words, members, out, k);
    }
    out
}

// The row, and what edges lead to from it: until a sweep adds nothing.
#[tactic(auto, using(crate::proofs::graph::Leads::gather_laws))]
fn gather(words: &[u64], members: Row, row: Row, n: usize) -> Row
    ensures { Gathered n members.words words.now row.words result.words }
{
    let mut out = row;
    loop {
        let next = sweep(words, members, out, n);
        if next.count() == out.count() {
            return out;
        }
        out = next;
    }
}

// Position k is in the row, is a member, and reads ALL-UNNAMED.
#[tactic(auto, unfolding(crate::specs::GraphSteps::unnamed_in))]
fn is_unnamed(words: &[u64], row: Row, members: Row, k: usize) -> bool
    ensures { result ≡ unnamed_in row.words members.words words.now k }
{
    row.has(k) && members.has(k) && reads_unnamed(words, k)
}

fn any_unnamed(words: &[u64], row: Row, members: Row, n: usize) -> bool
    ensures { result ≡ any_below (unnamed_in row.words members.words words.now) n }
{
    (0..n).any(|k| is_unnamed(words, row, members, k))
}

// Position i reads ALL-UNNAMED, or a member in the row does.
fn leads_to_unnamed(words: &[u64], row: Row, members: Row, n: usize, i: usize) -> bool
    ensures { result ≡ unnamed_bit words.now i || any_below (unnamed_in row.words members.words words.now) n }
{
    reads_unnamed(words, i) || any_unnamed(words, row, members, n)
}

// What the member at i leads to. The row `seen` has the modules that are not hidden, and the members are among them.
fn onward(words: &[u64], seen: Row, members: Row, n: usize, i: usize) -> GraphAnswer
    requires masked { Masked n seen.words members.words }
    requires i_value { counts_at (holds seen.words) members.words i ≡ true }
    ensures { Onward (holds seen.words) members.words words.now i result }
{
    let row = gather(words, members, row_of(words, i), n);
    let last = leads_to_unnamed(words, row, members, n, i);
    tell(seen.intersection(row), last)
}

// The members among the positions seen.
#[tactic(auto, unfolding(crate::specs::GraphSteps::counts_in))]
fn members_among(words: &[u64], seen: Row) -> Row
    ensures { Holding result.words (counts_in (holds seen.words) words.now) }
{
    seen.intersection(members(words))
}

// The members whose modules are not hidden.
#[tactic(auto, using(crate::proofs::graph::Answers::members_are))]
fn visible_members(table: &ModuleTable, words: &[u64]) -> Row
    ensures { Holding result.words (has_member (modules table.now.set.now) words.now) }
{
    members_among(words, visible(table))
}

// The members that read the module of this name, or ALL-UNNAMED, in a set that the check takes, over enough words.
#[tactic(auto, using(crate::proofs::graph::Answers::readers_in_laws))]
fn readers_in(table: &ModuleTable, words: &[u64], name: &[u8]) -> GraphAnswer
    requires word_count_in_bounds { word_count ≤ length words.now }
    ensures { Ok result ≡ readers_of table.now.set.now words.now name.now }
{
    let found = table.find(name);
    let asked = same(name, b"ALL-UNNAMED");
    let own = visible_members(table, words);
    let row = readers(words, own, found, asked, table.count);
    tell(row, false)
}

// The same for any set, which is checked first, and any words.
#[tactic(auto, using(crate::proofs::graph::Answers::checked_laws))]
pub fn readers_of(set: &[u8], words: &[u64], name: &[u8]) -> Result<GraphAnswer, ModuleError>
    ensures { result ≡ readers_of set.now words.now name.now }
{
    let mut index = [0usize; INDEX_LENGTH];
    let checked = check_set_with(set, &mut index)?;
    if words.len() < WORDS {
        return Err(ModuleError::OutputTooShort(WORDS));
    }
    let table = ModuleTable::new(set, &checked, &index);
    Ok(readers_in(&table, words, name))
}

// What one read edge or more lead to from the module of this name, in a set that the check takes, over enough words.
#[tactic(auto, using(crate::proofs::graph::Answers::reads_in_laws))]
fn reads_in(table: &ModuleTable, words: &[u64], name: &[u8]) -> GraphAnswer
    requires word_count_in_bounds { word_count ≤ length words.now }
    ensures { Ok result ≡ transitive_reads table.now.set.now words.now name.now }
{
    match member(table, words, name) {
        Some(i) => {
            let seen = visible(table);
            let own = members_among(words, seen);
            onward(words, seen, own, table.count, i)
        }
        None => tell(Row::empty(), false),
    }
}

// The same for any set, which is checked first, and any words.
#[tactic(auto, using(crate::proofs::graph::Answers::checked_laws))]
pub fn transitive_reads(set: &[u8], words: &[u64], name: &[u8]) -> Result<GraphAnswer, ModuleError>
    ensures { result ≡ transitive_reads set.now words.now name.now }
{
    let mut index = [0usize; INDEX_LENGTH];
    let checked = check_set_with(set, &mut index)?;
    if words.len() < WORDS {
        return Err(ModuleError::OutputTooShort(WORDS));
    }
    let table = ModuleTable::new(set, &checked, &index);
    Ok(reads_in(&table, words, name))
}

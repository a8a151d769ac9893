// Who reads whom among the members: the read edges, over positions in the set.
ghost use Rattle.std.specs.Prelude.{◌≡◌, true, false, ◌<◌, length, replicate};
ghost use Rattle.records.specs.Name.{java_base};
ghost use Rattle.records.specs.Descriptor.{descriptor_of, requirement_of};
ghost use Rattle.records.specs.Request.{read_of, request_of};
ghost use Rattle.records.specs.Set.{check_set, block_at};
ghost use Rattle.records.specs.Finder.{find_name};
ghost use Rattle.resolution.specs.Row.{holds};
ghost use Rattle.resolution.specs.Graph.{rows_length};
ghost use Rattle.resolution.specs.ModuleTable.{names_in};
ghost use Rattle.resolution.specs.Readability.{table_names, member_of, is_required, required_at, direct_at, direct_from, base_of, edges_of, others_at, edge_from, Below, ModuleReads, WithMore, Holding, WithEdges, TransitiveGraph, DirectRows, ReadRows, ReadAdded, ReadsAdded, ReadEdges};

use crate::graph::{ROWS, clear, row_at, set_edge, set_row, set_unnamed};
use crate::module_table::ModuleTable;
use crate::reach::{next_in, reachable_from};
use crate::row::Row;
use records::bytes::{part, same};
use records::descriptor::{is_automatic, is_transitive, name, required};
use records::name::{after_name, name_of};
use records::record::{Cursor, Kind};
use records::set::block;
use records::sorted::find_in;

// The member of this name.
fn member(table: &ModuleTable, members: Row, name: &[u8]) -> Option<usize>
    ensures { result ≡ member_of members.words (find_name (names_in table.now) name.now 0) }
{
    match table.find(name) {
        Some(i) => {
            if members.has(i) {
                return Some(i);
            }
            None
        }
        None => None,
    }
}

// The member of a requirement's name. java.base is required by nearly every module, and is looked up already.
fn required_member(
    table: &ModuleTable,
    members: Row,
    base: Option<usize>,
    name: &[u8],
) -> Option<usize>
    requires base_value { base ≡ member_of members.words (find_name (names_in table.now) java_base 0) }
    ensures { result ≡ member_of members.words (find_name (names_in table.now) name.now 0) }
{
    if same(name, b"java.base") {
        return base;
    }
    member(table, members, name)
}

// The edges of one requirement of the module at p: to the member of its name, in the graph only if it is transitive. It is looked up
// once for both.
fn set_requirement(
    table: &ModuleTable,
    members: Row,
    base: Option<usize>,
    body: &[u8],
    p: usize,
    graph: &mut [u64],
    rows: &mut [u64],
)
    requires base_value { base ≡ member_of members.words (find_name (names_in table.now) java_base 0) }
    requires p_bound { p < 512 }
    requires graph_len { length graph.old ≡ rows_length }
    requires rows_len { length rows.old ≡ rows_length }
    ensures graph_with_edges { WithEdges graph.old (edges_of p (is_required (names_in table.now) members.words true (requirement_of body.now))) graph.new }
    ensures rows_with_edges { WithEdges rows.old (edges_of p (is_required (names_in table.now) members.words false (requirement_of body.now))) rows.new }
{
    let found = required_member(table, members, base, required(body));
    set_edge(p, found, rows);
    if is_transitive(body) {
        set_edge(p, found, graph);
    }
}

// The edges of all requirements of the module at p, which has this block.
fn set_requirements(
    table: &ModuleTable,
    members: Row,
    base: Option<usize>,
    block: &[u8],
    p: usize,
    graph: &mut [u64],
    rows: &mut [u64],
)
    requires base_value { base ≡ member_of members.words (find_name (names_in table.now) java_base 0) }
    requires p_bound { p < 512 }
    requires graph_len { length graph.old ≡ rows_length }
    requires rows_len { length rows.old ≡ rows_length }
    ensures graph_with_edges { WithEdges graph.old (edges_of p (required_at (names_in table.now) members.words true (descriptor_of block.now).requires)) graph.new }
    ensures rows_with_edges { WithEdges rows.old (edges_of p (required_at (names_in table.now) members.words false (descriptor_of block.now).requires)) rows.new }
{
    let mut c = Cursor { at: 0 };
    while let Some(span) = c.next(block, Kind::Requires) {
        let body = span.of(block);
        c = span.next;
        set_requirement(table, members, base, body, p, graph, rows);
    }
}

// The edge to java.base of the module at p, which has this block (not for java.base itself).
fn set_base(block: &[u8], base: Option<usize>, p: usize, rows: &mut [u64])
    requires base_below { Below base }
    requires p_bound { p < 512 }
    requires rows_len { length rows.old ≡ rows_length }
    ensures { WithEdges rows.old (edges_of p (base_of (descriptor_of block.now) base)) rows.new }
{
    if same(name(block), b"java.base") {
        return;
    }
    set_edge(p, base, rows);
}

// What the module at p reads directly, that is the members that it requires and java.base (not for itself), and in the graph what it
// requires transitively.
fn set_direct_row(
    table: &ModuleTable,
    members: Row,
    base: Option<usize>,
    p: usize,
    graph: &mut [u64],
    rows: &mut [u64],
)
    requires base_value { base ≡ member_of members.words (find_name (names_in table.now) java_base 0) }
    requires p_bound { p < 512 }
    requires graph_len { length graph.old ≡ rows_length }
    requires rows_len { length rows.old ≡ rows_length }
    ensures graph_with_edges { WithEdges graph.old (edges_of p (required_at (names_in table.now) members.words true (descriptor_of (block_at table.now.set.now table.now.starts.now p)).requires)) graph.new }
    ensures rows_with_edges { WithEdges rows.old (edges_of p (direct_at (names_in table.now) members.words (descriptor_of (block_at table.now.set.now table.now.starts.now p)))) rows.new }
{
    let b = table.block(p);
    set_requirements(table, members, base, b, p, graph, rows);
    set_base(b, base, p, rows);
}

// The row with all members but p more.
fn with_others(row: Row, members: Row, p: usize) -> Row
    ensures { WithMore row.words (others_at members.words p) result.words }
{
    let mut out = row;
    let mut k: usize = 0;
    while k < 512 {
        let j = k;
        k += 1;
        if j != p {
            if members.has(j) {
                out = out.with(j);
            }
        }
    }
    out
}

// What the module at p reads without AR, by the graph of transitive requirements and what it reads directly.
fn read_row(table: &ModuleTable, members: Row, graph: &[u64], direct: Row, p: usize) -> Row
    requires graph_len { length graph.now ≡ rows_length }
    requires holding { Holding direct.words (direct_from (names_in table.now) members.words (holds members.words p) (descriptor_of (block_at table.now.set.now table.now.starts.now p))) }
    ensures { ModuleReads (names_in table.now) members.words graph.now (descriptor_of (block_at table.now.set.now table.now.starts.now p)) p (holds result.words) }
{
    if members.has(p) {
        let row = reachable_from(graph, direct);
        if is_automatic(table.block(p)) {
            return with_others(row, members, p);
        }
        return row;
    }
    Row::empty()
}

// The graph of the transitive requirements between members, and in `rows` what each member reads directly. All words are 0 before.
// java.base is looked up once for all.
fn set_direct(table: &ModuleTable, members: Row, graph: &mut [u64], rows: &mut [u64])
    requires graph_value { graph.old ≡ replicate rows_length 0 }
    requires rows_value { rows.old ≡ replicate rows_length 0 }
    ensures transitive_graph { TransitiveGraph table.now.set.now table.now.starts.now table.now.count members.words graph.new }
    ensures direct_rows { DirectRows table.now.set.now table.now.starts.now table.now.count members.words rows.new }
{
    let base = member(table, members, b"java.base");
    let mut k: usize = 0;
    while let Some(p) = next_in(members, k) {
        k = p + 1;
        set_direct_row(table, members, base, p, graph, rows);
    }
}

// The row of each member, from what it reads directly to all that it reads without AR.
fn set_reads(table: &ModuleTable, members: Row, graph: &[u64], rows: &mut [u64])
    requires graph_len { length graph.now ≡ rows_length }
    requires rows_len { length rows.old ≡ rows_length }
    requires direct_rows { DirectRows table.now.set.now table.now.starts.now table.now.count members.words rows.old }
    ensures { ReadRows table.now.set.now table.now.starts.now table.now.count members.words graph.now rows.new }
{
    let mut k: usize = 0;
    while let Some(p) = next_in(members, k) {
        k = p + 1;
        let direct = row_at(rows, p);
        let row = read_row(table, members, graph, direct, p);
        set_row(rows, p, row);
    }
}

// The edge of an AR.
fn set_read(source: Option<usize>, target: Option<usize>, rows: &mut [u64])
    requires source_below { Below source }
    requires target_below { Below target }
    requires rows_len { length rows.old ≡ rows_length }
    ensures { WithEdges rows.old (edge_from source target) rows.new }
{
    match source {
        Some(i) => {
            set_edge(i, target, rows);
        }
        None => {}
    }
}

// The edge of one AR is added.
fn add_override(table: &ModuleTable, members: Row, body: &[u8], rows: &mut [u64])
    requires rows_len { length rows.old ≡ rows_length }
    ensures { ReadAdded (names_in table.now) members.words (read_of body.now) rows.old rows.new }
{
    let target = name_of(after_name(body));
    let from = member(table, members, name_of(body));
    let to = member(table, members, target);
    set_read(from, to, rows);
    set_unnamed(from, target, rows);
}

// The edges of the request's AR are added.
fn add_reads(table: &ModuleTable, request: &[u8], members: Row, rows: &mut [u64])
    requires rows_len { length rows.old ≡ rows_length }
    ensures { ReadsAdded (names_in table.now) members.words (request_of request.now).add_reads rows.old rows.new }
{
    let mut c = Cursor { at: 0 };
    while let Some(span) = c.next(request, Kind::AddReads) {
        let body = span.of(request);
        c = span.next;
        add_override(table, members, body, rows);
    }
}

// The rows of the members anew, where they lie: cleared once, then what each member reads. All other rows are 0.
pub fn read_edges(table: &ModuleTable, request: &[u8], members: Row, rows: &mut [u64])
    requires rows_len { length rows.old ≡ rows_length }
    ensures { ReadEdges table.now.set.now request.now members.words rows.new }
{
    let mut graph = [0u64; ROWS];
    clear(rows);
    set_direct(table, members, &mut graph, rows);
    set_reads(table, members, &graph, rows);
    add_reads(table, request, members, rows);
}

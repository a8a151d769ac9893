// The length of what is to be written, and whether what is read is good: front to back through the tables.
ghost use Rattle.std.specs.Prelude.{◌≡◌, cond, Some, None, IfSome, option_map, ◌+◌, ◌^◌, ◌≤◌, ◌<◌, length, ltb};
ghost use Rattle.std.specs.Option.{ForSome};
ghost use Rattle.class_reader.specs.Entry.{is_entry, entry_body, rest_good, prefix_of, suffix_of, module_tables};
ghost use Rattle.class_reader.specs.Measure.{nothing_measured, measure_entries, measure_table, measure_tables, measure_module, Small};

use crate::entry::{Entry, list_size, version_size};
use crate::pool::{CLASS, ClassFile, MODULE};
use records::bytes::{be16, same};

// The tables of a Module attribute, one behind the other.
pub const MODULE_TABLES: [Entry; 5] = [
    Entry::Requires,
    Entry::Exports,
    Entry::Opens,
    Entry::Uses,
    Entry::Provides,
];

// How far the file was read, and the bytes that its records take: None where the body of one is over 65,535 bytes.
#[derive(Clone, Copy)]
pub struct Measured {
    pub next: usize,
    pub size: Option<usize>,
}

impl Measured {
    // Nothing yet, with the file read up to here.
    pub fn nothing(next: usize) -> Measured
        ensures { result ≡ nothing_measured next }
    {
        Measured {
            next,
            size: Some(0),
        }
    }
}

// The bytes of the body of the entry at p without its name, if they are good.
#[tactic(auto, using(crate::proofs::measure::Laws::version_long), unfolding(crate::specs::Entry::rest_good, crate::specs::Entry::prefix_of, crate::specs::Entry::suffix_of))]
fn rest_size(class: ClassFile, e: Entry, p: usize) -> Option<usize>
    requires { p ≤ 65541 }
    ensures value { result ≡ cond (rest_good e class.entry.file.now class.entry.pool.now p) (Some (length (prefix_of e class.entry.file.now p) + length (suffix_of e class.entry.file.now class.entry.pool.now p))) None }
    ensures upper_bound { IfSome result (λ size. size ≤ 20000000) }
{
    let file = class.file;
    match e {
        Entry::Module => Some(3 + version_size(class, be16(file, p + 4))?),
        Entry::Requires => {
            if same(class.name(be16(file, p)), b"ALL-UNNAMED") {
                return None;
            }
            Some(2 + version_size(class, be16(file, p + 4))?)
        }
        Entry::Exports | Entry::Opens => list_size(class, MODULE, be16(file, p + 4), p + 6),
        Entry::Provides => list_size(class, CLASS, be16(file, p + 2), p + 4),
        Entry::Uses | Entry::Package | Entry::MainClass => Some(0),
    }
}

// The bytes that the record of the entry at p takes, if the entry is good.
#[tactic(auto, using(crate::proofs::entry::Small::body_long), unfolding(crate::specs::Entry::is_entry))]
pub fn entry_size(class: ClassFile, e: Entry, p: usize) -> Option<usize>
    requires { p ≤ 65541 }
    ensures { result ≡ cond (is_entry e class.entry.file.now class.entry.pool.now p) (Some (4 + length (entry_body e class.entry.file.now class.entry.pool.now p))) None }
{
    if class.file.len() < e.end(class.file, p) {
        return None;
    }
    let name = class.good_name(e.name_tag(), be16(class.file, p))?;
    let rest = rest_size(class, e, p)?;
    Some(5 + name.len() + rest)
}

// The bytes so far with those of one more record: None where the body of one is over 65,535 bytes.
fn with_record(size: Option<usize>, bytes: usize) -> Option<usize>
    requires { ForSome size (λ n. n + bytes < 2 ^ 64) }
    ensures { result ≡ cond (ltb 65539 bytes) None (option_map (λ n. n + bytes) size) }
{
    let size = size?;
    if 65539 < bytes {
        return None;
    }
    Some(size + bytes)
}

// n entries from where `from` ends, if they are good.
pub fn measure(class: ClassFile, e: Entry, n: usize, from: Measured) -> Option<Measured>
    requires { Small class.file.now from }
    ensures value { result ≡ measure_entries e class.entry.file.now class.entry.pool.now n from }
    ensures small { IfSome result (λ measured. Small class.entry.file.now measured) }
{
    let mut measured = from;
    for _i in 0..n {
        let bytes = entry_size(class, e, measured.next)?;
        measured = Measured {
            next: e.end(class.file, measured.next),
            size: with_record(measured.size, bytes),
        };
    }
    Some(measured)
}

// The table there, if it is good.
#[tactic(auto, unfolding(crate::specs::Measure::measure_table, crate::specs::Measure::measure_entries, crate::specs::Measure::adding, crate::specs::Entry::table_good, crate::specs::Entry::table_end, crate::specs::Entry::table_items))]
pub fn measure_table(class: ClassFile, e: Entry, from: Measured) -> Option<Measured>
    requires { Small class.file.now from }
    ensures value { result ≡ measure_table e class.entry.file.now class.entry.pool.now from }
    ensures small { IfSome result (λ measured. Small class.entry.file.now measured) }
{
    let next = from.next + 2;
    if class.file.len() < next {
        return None;
    }
    measure(
        class,
        e,
        be16(class.file, from.next),
        Measured { next, ..from },
    )
}

// The tables of a Module attribute there, if they are good.
fn measure_tables(class: ClassFile, from: Measured) -> Option<Measured>
    requires { Small class.file.now from }
    ensures value { result ≡ measure_tables class.entry.file.now class.entry.pool.now module_tables from }
    ensures small { IfSome result (λ measured. Small class.entry.file.now measured) }
{
    let mut measured = from;
    for e in MODULE_TABLES {
        measured = measure_table(class, e, measured)?;
    }
    Some(measured)
}

// The contents of a Module attribute, from p on, if they are good.
#[tactic(auto, unfolding(crate::specs::Measure::measure_module))]
pub fn measure_module(class: ClassFile, p: usize) -> Option<Measured>
    requires { p ≤ length class.file.now }
    ensures value { result ≡ measure_module class.entry.file.now class.entry.pool.now p }
    ensures small { IfSome result (λ measured. Small class.entry.file.now measured) }
{
    let measured = measure(class, Entry::Module, 1, Measured::nothing(p))?;
    measure_tables(class, measured)
}

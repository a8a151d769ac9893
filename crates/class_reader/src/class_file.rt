// The class reader: a module-info.class to the records of its module.
ghost use Rattle.std.specs.Prelude.{◌≡◌, true, ◌||◌, ◌+◌, ◌≤◌, length, leb, take};
ghost use Rattle.std.specs.Option.{ForSome};
ghost use Rattle.records.specs.Output.{Put};
ghost use Rattle.class_reader.specs.Attribute.{main_items, descriptor_items};
ghost use Rattle.class_reader.specs.Entry.{bytes_of};
ghost use Rattle.class_reader.specs.ClassFile.{head_good, is_module_info, fields_good, ClassRead};
ghost use Rattle.class_reader.specs.Output.{Room};
ghost use Rattle.class_reader.specs.Pool.{pool_count, pool_end, pool_of};
ghost use Rattle.class_reader.specs.Reader.{package_count, Sized, Ordered, ItemsFitted, ItemsRead, BehindRead, PoolRead};
ghost use Rattle.class_reader.specs.Walk.{Light, module_size, Readable};

use crate::attribute::{Seen, Walked, walk};
use crate::entry::Entry;
use crate::measure::entry_size;
use crate::output::Writer;
use crate::packages::{order_names, packages_size};
use crate::pool::{CLASS, ClassFile, fill};
use records::bytes::{be16, same};
use records::error::ModuleError;

// Whether what stands before the pool is good: magic, major version, the pool's count.
#[tactic(auto, unfolding(crate::specs::ClassFile::head_good, crate::specs::Pool::pool_count))]
fn head_good(file: &[u8]) -> bool
    ensures { result ≡ head_good file.now }
{
    10 <= file.len()
        && be16(file, 0) == 0xCAFE
        && be16(file, 2) == 0xBABE
        && 53 <= be16(file, 6)
        && 0 < be16(file, 8)
}

// Whether i is the class module-info.
#[tactic(auto, unfolding(crate::specs::ClassFile::is_module_info))]
fn is_module_info(class: ClassFile, i: usize) -> bool
    ensures { result ≡ is_module_info class.entry.file.now class.entry.pool.now i }
{
    match class.good_name(CLASS, i) {
        Some(name) => same(name, b"module-info"),
        None => false,
    }
}

// Whether the fields between pool and attributes are good.
#[tactic(auto, unfolding(crate::specs::ClassFile::fields_good))]
fn fields_good(class: ClassFile, at: usize) -> bool
    requires { at ≤ 65535 }
    ensures { result ≡ fields_good class.entry.file.now class.entry.pool.now at }
{
    let file = class.file;
    at + 14 <= file.len()
        && be16(file, at) == 0x8000
        && is_module_info(class, be16(file, at + 2))
        && be16(file, at + 4) == 0
        && be16(file, at + 6) == 0
        && be16(file, at + 8) == 0
        && be16(file, at + 10) == 0
}

// The bytes that the record of the main class takes.
fn main_size(class: ClassFile, seen: Seen) -> usize
    requires { Readable class.file.now class.pool.now seen }
    ensures value { result ≡ length (bytes_of (main_items class.entry.file.now class.entry.pool.now seen.main)) }
    ensures upper_bound { result ≤ 260 }
{
    match seen.main {
        Some(at) => entry_size(class, Entry::MainClass, at + 6).unwrap_or(0),
        None => 0,
    }
}

// Writes the record of the main class, where there is one.
fn put_main(writer: &mut Writer, class: ClassFile, seen: Seen)
    requires readable { Readable class.file.now class.pool.now seen }
    requires room { writer.old.at + length (bytes_of (main_items class.file.now class.pool.now seen.main)) ≤ length writer.old.out.now }
    ensures put { Put writer.old.out.now writer.old.at (bytes_of (main_items class.entry.file.now class.entry.pool.now seen.main)) writer.new.out.now writer.new.at }
    ensures same { writer.new.out.ghost_name ≡ writer.old.out.ghost_name }
{
    if let Some(main) = seen.main {
        writer.entry(class, Entry::MainClass, main + 6);
    }
}

// Writes the records of the descriptor. The names are those of its packages in order.
fn write_items(writer: &mut Writer, class: ClassFile, seen: Seen, names: &[usize])
    requires readable { Readable class.file.now class.pool.now seen }
    requires ordered { Ordered class.file.now class.pool.now seen names.now }
    requires room { Room writer.old.out.now writer.old.at (descriptor_items class.file.now class.pool.now seen) }
    ensures put { Put writer.old.out.now writer.old.at (bytes_of (descriptor_items class.entry.file.now class.entry.pool.now seen)) writer.new.out.now writer.new.at }
    ensures same { writer.new.out.ghost_name ≡ writer.old.out.ghost_name }
{
    let descriptor = seen.descriptor.unwrap_or(0);
    writer.module(class, descriptor + 6);
    writer.packages(class.file, names);
    put_main(writer, class, seen);
}

// The same at the front of the output; returns their length.
fn write_at_front(class: ClassFile, seen: Seen, names: &[usize], out: &mut [u8]) -> usize
    requires readable { Readable class.file.now class.pool.now seen }
    requires ordered { Ordered class.file.now class.pool.now seen names.now }
    requires room { Room out.old 0 (descriptor_items class.file.now class.pool.now seen) }
    ensures { Put out.old 0 (bytes_of (descriptor_items class.entry.file.now class.entry.pool.now seen)) out.new result }
{
    let mut writer = Writer {
        out: &mut *out,
        at: 0,
    };
    write_items(&mut writer, class, seen, names);
    writer.at
}

// The same if the output has room; `size` is the length of the records of the Module attribute.
fn write_fitted(
    class: ClassFile,
    seen: Seen,
    size: usize,
    names: &[usize],
    out: &mut [u8],
) -> Result<usize, ModuleError>
    requires readable { Readable class.file.now class.pool.now seen }
    requires ordered { Ordered class.file.now class.pool.now seen names.now }
    requires sized { Sized class.file.now class.pool.now seen size }
    ensures { ItemsFitted (descriptor_items class.entry.file.now class.entry.pool.now seen) out.old out.new result }
{
    let n = size + packages_size(class.file, names) + main_size(class, seen);
    if out.len() < n {
        return Err(ModuleError::OutputTooShort(n));
    }
    write_at_front(class, seen, names, out);
    Ok(n)
}

// The number of indices of the ModulePackages attribute, where there is one.
#[tactic(auto, unfolding(crate::specs::Reader::package_count))]
fn package_count(file: &[u8], packages: Option<usize>) -> usize
    requires { ForSome packages (λ at. at ≤ 65535) }
    ensures { result ≡ package_count file.now packages }
{
    match packages {
        Some(at) => be16(file, at + 6),
        None => 0,
    }
}

// Puts the packages in order at the front of the table, and returns their number.
fn order_packages(class: ClassFile, seen: Seen, table: &mut [usize]) -> usize
    requires readable { Readable class.file.now class.pool.now seen }
    requires packages_in_bounds { package_count class.file.now seen.packages ≤ length table.old }
    ensures ordered { Ordered class.entry.file.now class.entry.pool.now seen (take result table.new) }
    ensures within { result ≤ length table.new }
{
    match seen.packages {
        Some(at) => order_names(class, be16(class.file, at + 6), at + 8, table),
        None => 0,
    }
}

// The same as `write_fitted`, with the packages put in order first.
fn write_ordered(
    class: ClassFile,
    seen: Seen,
    size: usize,
    table: &mut [usize],
    out: &mut [u8],
) -> Result<usize, ModuleError>
    requires readable { Readable class.file.now class.pool.now seen }
    requires packages_in_bounds { package_count class.file.now seen.packages ≤ length table.old }
    requires sized { Sized class.file.now class.pool.now seen size }
    ensures { ItemsFitted (descriptor_items class.entry.file.now class.entry.pool.now seen) out.old out.new result }
{
    let count = order_packages(class, seen, table);
    write_fitted(class, seen, size, &table[..count], out)
}

// Writes the records of the descriptor, if no body is too long and the output has room. The table has room for the packages: a small
// one is made sooner.
fn write_descriptor(class: ClassFile, walked: Walked, out: &mut [u8]) -> Result<usize, ModuleError>
    requires readable { Readable class.file.now class.pool.now walked.seen }
    requires size_value { walked.size ≡ module_size class.file.now class.pool.now walked.seen }
    requires light { Light walked.size }
    ensures { ItemsRead (descriptor_items class.entry.file.now class.entry.pool.now walked.seen) out.old out.new result }
{
    let Some(size) = walked.size else {
        return Err(ModuleError::TooLarge(0));
    };
    if package_count(class.file, walked.seen.packages) <= 1024 {
        let mut table = [0usize; 1024];
        return write_ordered(class, walked.seen, size, &mut table, out);
    }
    let mut table = [0usize; 32768];
    write_ordered(class, walked.seen, size, &mut table, out)
}

// Reads what stands behind a pool that ends at `at`.
fn read_attributes(class: ClassFile, at: usize, out: &mut [u8]) -> Result<usize, ModuleError>
    requires { at ≤ length class.file.now }
    ensures { BehindRead class.entry.file.now class.entry.pool.now at out.old out.new result }
{
    if !fields_good(class, at) {
        return Err(ModuleError::DescriptorParseError(at));
    }
    // Kept: by `?` the place that is told would not stand here, for must-fail/wrong_offset.edit to change it.
    match walk(class, be16(class.file, at + 12), at + 14) {
        Ok(walked) => write_descriptor(class, walked, out),
        Err(fault) => Err(ModuleError::DescriptorParseError(fault.at)),
    }
}

// Reads the pool into the table, and what stands behind it.
fn read_pool(file: &[u8], table: &mut [u16], out: &mut [u8]) -> Result<usize, ModuleError>
    requires file_len_bound { length file.now ≤ 65535 }
    requires file_value { head_good file.now ≡ true }
    requires table_value { leb (pool_count file.now) (length table.old) || leb 21846 (length table.old) ≡ true }
    ensures { PoolRead file.now (pool_of file.now) (pool_end file.now) out.old out.new result }
{
    let count = be16(file, 8);
    let end = fill(file, count, table)?;
    let class = ClassFile {
        file,
        pool: &table[..count],
    };
    read_attributes(class, end, out)
}

// The same, with a table for as many constants as there are: a small one is made sooner.
fn read_constants(file: &[u8], out: &mut [u8]) -> Result<usize, ModuleError>
    requires file_len_bound { length file.now ≤ 65535 }
    requires file_value { head_good file.now ≡ true }
    ensures { PoolRead file.now (pool_of file.now) (pool_end file.now) out.old out.new result }
{
    if be16(file, 8) <= 2048 {
        let mut table = [0u16; 2048];
        return read_pool(file, &mut table, out);
    }
    let mut table = [0u16; 21846];
    read_pool(file, &mut table, out)
}

// Writes the records of the module that the class file describes at the front of `out`. Nothing is written on a refusal.
pub fn from_class_file(file: &[u8], out: &mut [u8]) -> Result<usize, ModuleError>
    ensures { ClassRead file.now out.old out.new result }
{
    if 65535 < file.len() {
        return Err(ModuleError::TooLarge(0));
    }
    if !head_good(file) {
        return Err(ModuleError::DescriptorParseError(0));
    }
    read_constants(file, out)
}

// What is written: bytes into a lent buffer, and the records of an automatic module.
ghost use Rattle.std.specs.Prelude.{◌≡◌, ◌++◌, map, true, ◌+◌, ◌*◌, ◌≤◌, length, take};
ghost use Rattle.records.specs.Output.{written, Put, packages_size, marked, module_record, base_record, group_of, names_in, GroupRoom, entry_records, package_records, PackagesRoom, automatic_records};
ghost use Rattle.records.specs.Order.{name_in, all_short};

use crate::bytes::head;
use crate::order::name_in;

// Writes s at `at`, and returns the place behind it.
#[tactic(auto, using(crate::proofs::output::Written::put_laws))]
pub fn put(out: &mut [u8], at: usize, s: &[u8]) -> usize
    requires { at + length s.now ≤ length out.old }
    ensures { Put out.old at s.now out.new result }
{
    // Kept: `copy_from_slice` calls memmove, which an archive for C would newly need from outside.
    for i in 0..s.len() {
        out[at + i] = s[i];
    }
    at + s.len()
}

// The bytes that the records of the table's first `count` packages take: EX, OP and PK. Each takes at most 3 * 65,535 + 19.
#[tactic(auto, using(crate::proofs::output::Sizes::size_laws))]
pub fn size(packages: &[u8], table: &[usize], count: usize) -> usize
    requires count_in_bounds { count ≤ length table.now }
    requires count_bound { count ≤ 16384 }
    ensures value { result ≡ packages_size (map (name_in packages.now) (take count table.now)) }
    ensures upper_bound { result ≤ count * 196624 }
{
    let mut n: usize = 0;
    for entry in &table[..count] {
        n += 3 * name_in(packages, *entry).len() + 19;
    }
    n
}

// Writes the name between `front` and `end`, and returns the place behind them.
#[tactic(auto, using(crate::proofs::output::Written::put_named_laws))]
pub fn put_named(out: &mut [u8], at: usize, front: &[u8], name: &[u8], end: &[u8]) -> usize
    requires { at + (length front.now + (length name.now + length end.now)) ≤ length out.old }
    ensures { Put out.old at (front.now ++ (name.now ++ end.now)) out.new result }
{
    let b = put(out, at, front);
    let c = put(out, b, name);
    put(out, c, end)
}

// Writes a record with this mark whose body is the name and then `end`, and returns the place behind it.
#[tactic(auto, using(crate::proofs::output::Records::put_record_laws))]
fn put_record(out: &mut [u8], at: usize, mark: usize, name: &[u8], end: &[u8]) -> usize
    requires end_in_bounds { at + (5 + length name.now + length end.now) ≤ length out.old }
    requires name_len_bound { length name.now ≤ 255 }
    requires end_len_bound { length end.now ≤ 2 }
    ensures { Put out.old at (marked mark name.now end.now) out.new result }
{
    let n = name.len();
    let len = 1 + n + end.len();
    let front = [
        (mark / 256 % 256) as u8,
        (mark % 256) as u8,
        (len / 256 % 256) as u8,
        (len % 256) as u8,
        n as u8,
    ];
    put_named(out, at, &front, name, end)
}

// Writes a record with this mark for each of the table's first `count` packages, with a body of the name and then `extra`
// zeros, and returns the place behind them.
#[tactic(auto, using(crate::proofs::output::Groups::put_group_laws))]
pub fn put_group(
    out: &mut [u8],
    at: usize,
    mark: usize,
    extra: usize,
    packages: &[u8],
    table: &[usize],
    count: usize,
) -> usize
    requires { GroupRoom out.old at mark extra packages.now table.now count }
    ensures { Put out.old at (group_of mark extra (names_in packages.now table.now count)) out.new result }
{
    let end = head(b"\x00\x00", extra);
    let mut b = at;
    for entry in &table[..count] {
        b = put_record(out, b, mark, name_in(packages, *entry), end);
    }
    b
}

// Writes the MO record of an automatic module of this name at the front of `out`, and RQ java.base behind it, and returns
// the place behind them.
#[tactic(auto, using(crate::proofs::output::Records::put_module_laws))]
fn put_module(out: &mut [u8], name: &[u8]) -> usize
    requires name_in_bounds { 26 + length name.now ≤ length out.old }
    requires name_len_bound { length name.now ≤ 255 }
    ensures { Put out.old 0 (module_record name.now ++ base_record) out.new result }
{
    let n = name.len();
    let len = 5 + n;
    let front = [
        0x4D,
        0x4F,
        (len / 256 % 256) as u8,
        (len % 256) as u8,
        0,
        0,
        1,
        n as u8,
    ];
    put_named(
        out,
        0,
        &front,
        name,
        b"\x00RQ\x00\x0d\x80\x00\x09java.base\x00",
    )
}

// Writes an EX record for each of the table's first `count` packages, and then an OP record for each, and returns the place
// behind them.
#[tactic(auto, using(crate::proofs::output::Automatic::put_entries_laws))]
fn put_entries(out: &mut [u8], at: usize, packages: &[u8], table: &[usize], count: usize) -> usize
    requires { PackagesRoom out.old at packages.now table.now count }
    ensures { Put out.old at (entry_records (names_in packages.now table.now count)) out.new result }
{
    let b = put_group(out, at, 0x4558, 2, packages, table, count);
    put_group(out, b, 0x4F50, 2, packages, table, count)
}

// Writes an EX, an OP and a PK record for each of the table's first `count` packages, and returns the place behind them.
#[tactic(auto, using(crate::proofs::output::Automatic::put_packages_laws))]
fn put_packages(out: &mut [u8], at: usize, packages: &[u8], table: &[usize], count: usize) -> usize
    requires { PackagesRoom out.old at packages.now table.now count }
    ensures { Put out.old at (package_records (names_in packages.now table.now count)) out.new result }
{
    let b = put_entries(out, at, packages, table, count);
    put_group(out, b, 0x504B, 0, packages, table, count)
}

// Writes the records of an automatic module of this name with the table's first `count` packages at the front of `out`, and
// returns their length.
#[tactic(auto, using(crate::proofs::output::Automatic::packages_room))]
pub fn write_records(
    out: &mut [u8],
    name: &[u8],
    packages: &[u8],
    table: &[usize],
    count: usize,
) -> usize
    requires count_in_bounds { count ≤ length table.now }
    requires table_in_bounds { length (automatic_records name.now (map (name_in packages.now) (take count table.now))) ≤ length out.old }
    requires name_len_bound { length name.now ≤ 255 }
    requires table_value { all_short (map (name_in packages.now) (take count table.now)) ≡ true }
    ensures { (result ≡ length (automatic_records name.now (map (name_in packages.now) (take count table.now)))) × (out.new ≡ written out.old 0 (automatic_records name.now (map (name_in packages.now) (take count table.now)))) }
{
    let a = put_module(out, name);
    put_packages(out, a, packages, table, count)
}

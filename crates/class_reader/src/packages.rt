// The packages of a ModulePackages attribute, in byte order without repeats.
ghost use Rattle.std.specs.Prelude.{◌≡◌, map, true, ◌+◌, ◌*◌, ◌≤◌, length};
ghost use Rattle.records.specs.Order.{all_short, name_in};
ghost use Rattle.records.specs.Output.{Put};
ghost use Rattle.class_reader.specs.Attribute.{package_item};
ghost use Rattle.class_reader.specs.Entry.{names_at, bytes_of};
ghost use Rattle.class_reader.specs.Packages.{NamesOrdered};

use crate::output::Writer;
use crate::pool::ClassFile;
use records::bytes::be16;
use records::order::{insert, name_in};
use records::output::put_group;
use records::record::Kind;

// Fills the table with the names of n indices from p on in byte order without repeats; returns their number.
pub fn order_names(class: ClassFile, n: usize, p: usize, table: &mut [usize]) -> usize
    requires n_in_bounds { n ≤ length table.old }
    requires n_bound { n ≤ 65535 }
    requires p_bound { p ≤ 65547 }
    requires p_value { all_short (names_at class.file.now class.pool.now n p) ≡ true }
    ensures { NamesOrdered class.entry.file.now (names_at class.entry.file.now class.entry.pool.now n p) table.old table.new result }
{
    let mut count = 0;
    for i in 0..n {
        let k = be16(class.file, p + 2 * i);
        count = insert(class.file, table, count, class.name_entry(k));
    }
    count
}

// The bytes that the PK records of these names take.
pub fn packages_size(file: &[u8], names: &[usize]) -> usize
    requires { length names.now ≤ 65535 }
    ensures value { result ≡ length (bytes_of (map package_item (map (name_in file.now) names.now))) }
    ensures upper_bound { result ≤ 65541 * length names.now }
{
    let mut size = 0;
    for entry in names {
        size += 5 + name_in(file, *entry).len();
    }
    size
}

impl<'a> Writer<'a> {
    // Writes the PK records of these names.
    pub fn packages(&mut self, file: &[u8], names: &[usize])
        requires names_value { all_short (map (name_in file.now) names.now) ≡ true }
        requires room { self.old.at + length (bytes_of (map package_item (map (name_in file.now) names.now))) ≤ length self.old.out.now }
        ensures put { Put self.old.out.now self.old.at (bytes_of (map package_item (map (name_in file.now) names.now))) self.new.out.now self.new.at }
        ensures same { self.new.out.ghost_name ≡ self.old.out.ghost_name }
    {
        let mark = Kind::Package.mark();
        self.at = put_group(self.out, self.at, mark, 0, file, names, names.len());
    }
}

// What is written: the records of the entries, front to back.
ghost use Rattle.std.specs.Prelude.{◌≡◌, [], ◌∷◌, true, ◌+◌, ◌≤◌, length};
ghost use Rattle.records.specs.Bytes.{u16_at};
ghost use Rattle.records.specs.Output.{Put, name_bytes, record_bytes};
ghost use Rattle.class_reader.specs.Attribute.{module_items};
ghost use Rattle.class_reader.specs.Entry.{high_flags, names_at, names_bytes, list_bytes, rest_good, prefix_of, suffix_of, kind_of, is_entry, entry_body, entry_item, bytes_of, entries_good, entries_end, entries_items, table_good, table_end, table_items, tables_good, tables_end, tables_items, module_tables};
ghost use Rattle.class_reader.specs.Pool.{name_at};
ghost use Rattle.class_reader.specs.Output.{NamesRoom, Room, Marked, PutItems};
ghost use Rattle.class_reader.specs.declared.entry.Entry.TheVariants.{Module};

use crate::entry::Entry;
use crate::measure::MODULE_TABLES;
use crate::pool::ClassFile;
use records::bytes::{be16, byte};
use records::output::{put, put_named};

// The output, and how far it is written.
#[derive(Drop)]
pub struct Writer<'a> {
    pub out: &'a mut [u8],
    pub at: usize,
}

// Of the high byte of flags, 0x8000 and 0x1000.
#[tactic(auto, unfolding(crate::specs::Entry::high_flags))]
fn high_flags(x: usize) -> usize
    ensures value { result ≡ high_flags x }
    ensures upper_bound { result ≤ 255 }
{
    x / 128 % 2 * 128 + x / 16 % 2 * 16
}

impl<'a> Writer<'a> {
    // Writes a name with its length byte.
    fn name(&mut self, name: &[u8])
        requires name_in_bounds { self.old.at + (1 + length name.now) ≤ length self.old.out.now }
        requires name_len_bound { length name.now ≤ 255 }
        ensures put { Put self.old.out.now self.old.at (name_bytes name.now) self.new.out.now self.new.at }
        ensures same { self.new.out.ghost_name ≡ self.old.out.ghost_name }
    {
        let front = [name.len() as u8];
        self.at = put_named(self.out, self.at, &front, name, b"");
    }

    // Writes the name of the index at p.
    fn index(&mut self, class: ClassFile, p: usize)
        requires p_in_bounds { self.old.at + length (name_bytes (name_at class.file.now class.pool.now (u16_at class.file.now p))) ≤ length self.old.out.now }
        requires p_len_bound { length (name_at class.file.now class.pool.now (u16_at class.file.now p)) ≤ 255 }
        ensures put { Put self.old.out.now self.old.at (name_bytes (name_at class.entry.file.now class.entry.pool.now (u16_at class.entry.file.now p))) self.new.out.now self.new.at }
        ensures same { self.new.out.ghost_name ≡ self.old.out.ghost_name }
    {
        self.name(class.name(be16(class.file, p)));
    }

    // Writes the names of n indices from p on.
    fn names(&mut self, class: ClassFile, n: usize, p: usize)
        requires { NamesRoom self.old.out.now self.old.at class.file.now class.pool.now n p }
        ensures put { Put self.old.out.now self.old.at (names_bytes (names_at class.entry.file.now class.entry.pool.now n p)) self.new.out.now self.new.at }
        ensures same { self.new.out.ghost_name ≡ self.old.out.ghost_name }
    {
        for i in 0..n {
            self.index(class, p + 2 * i);
        }
    }

    // Writes a list: the count, and the names of n indices from p on.
    fn list(&mut self, class: ClassFile, n: usize, p: usize)
        requires { NamesRoom self.old.out.now (self.old.at + 2) class.file.now class.pool.now n p }
        ensures put { Put self.old.out.now self.old.at (list_bytes class.entry.file.now class.entry.pool.now n p) self.new.out.now self.new.at }
        ensures same { self.new.out.ghost_name ≡ self.old.out.ghost_name }
    {
        let count = [(n / 256 % 256) as u8, (n % 256) as u8];
        self.at = put(self.out, self.at, &count);
        self.names(class, n, p);
    }

    // Writes what stands behind the name of the entry at p.
    #[tactic(auto, using(crate::proofs::output::Parts::suffix_laws), unfolding(crate::specs::Entry::suffix_of, crate::specs::Entry::rest_good))]
    fn suffix(&mut self, class: ClassFile, e: Entry, p: usize)
        requires p_bound { p ≤ 65541 }
        requires p_value { rest_good e class.file.now class.pool.now p ≡ true }
        requires p_in_bounds { self.old.at + length (suffix_of e class.file.now class.pool.now p) ≤ length self.old.out.now }
        ensures put { Put self.old.out.now self.old.at (suffix_of e class.entry.file.now class.entry.pool.now p) self.new.out.now self.new.at }
        ensures same { self.new.out.ghost_name ≡ self.old.out.ghost_name }
    {
        let file = class.file;
        match e {
            Entry::Module | Entry::Requires => self.name(class.version(be16(file, p + 4))),
            Entry::Exports | Entry::Opens => self.list(class, be16(file, p + 4), p + 6),
            Entry::Provides => self.list(class, be16(file, p + 2), p + 4),
            Entry::Uses | Entry::Package | Entry::MainClass => {}
        }
    }

    // Writes what stands before the name of the entry at p.
    #[tactic(auto, using(crate::proofs::output::Parts::none_put), unfolding(crate::specs::Entry::prefix_of))]
    fn prefix(&mut self, file: &[u8], e: Entry, p: usize)
        requires p_bound { p ≤ 65541 }
        requires p_in_bounds { self.old.at + length (prefix_of e file.now p) ≤ length self.old.out.now }
        ensures put { Put self.old.out.now self.old.at (prefix_of e file.now p) self.new.out.now self.new.at }
        ensures same { self.new.out.ghost_name ≡ self.old.out.ghost_name }
    {
        let high = high_flags(byte(file, p + 2));
        let low = byte(file, p + 3);
        match e {
            Entry::Module => {
                let flags = [high as u8, (low / 32 % 2 * 32) as u8, 0];
                self.at = put(self.out, self.at, &flags);
            }
            Entry::Requires => {
                let flags = [high as u8, (low / 32 % 4 * 32) as u8];
                self.at = put(self.out, self.at, &flags);
            }
            _ => {}
        }
    }

    // Writes a mark at `start` and the length of the body behind it, which ends here.
    fn mark(&mut self, start: usize, mark: usize)
        requires start_in_bounds { start + 4 ≤ length self.old.out.now }
        requires start_bound { start + 4 ≤ self.old.at }
        ensures put { Marked self.old.out.now start mark self.old.at self.new.out.now self.new.at }
        ensures same { self.new.out.ghost_name ≡ self.old.out.ghost_name }
    {
        let size = self.at - start - 4;
        let front = [
            (mark / 256 % 256) as u8,
            (mark % 256) as u8,
            (size / 256 % 256) as u8,
            (size % 256) as u8,
        ];
        put(self.out, start, &front);
    }

    // Writes the body of the record of the entry at p.
    fn body(&mut self, class: ClassFile, e: Entry, p: usize)
        requires p_bound { p ≤ 65541 }
        requires p_value { is_entry e class.file.now class.pool.now p ≡ true }
        requires p_in_bounds { self.old.at + length (entry_body e class.file.now class.pool.now p) ≤ length self.old.out.now }
        ensures put { Put self.old.out.now self.old.at (entry_body e class.entry.file.now class.entry.pool.now p) self.new.out.now self.new.at }
        ensures same { self.new.out.ghost_name ≡ self.old.out.ghost_name }
    {
        self.prefix(class.file, e, p);
        self.index(class, p);
        self.suffix(class, e, p);
    }

    // Writes the record of the entry at p.
    pub fn entry(&mut self, class: ClassFile, e: Entry, p: usize)
        requires p_bound { p ≤ 65541 }
        requires p_value { is_entry e class.file.now class.pool.now p ≡ true }
        requires room { Room self.old.out.now self.old.at (entry_item e class.file.now class.pool.now p ∷ []) }
        ensures put { Put self.old.out.now self.old.at (record_bytes (kind_of e) (entry_body e class.entry.file.now class.entry.pool.now p)) self.new.out.now self.new.at }
        ensures same { self.new.out.ghost_name ≡ self.old.out.ghost_name }
    {
        let start = self.at;
        self.at += 4;
        self.body(class, e, p);
        self.mark(start, e.kind().mark());
    }

    // Writes the records of n entries from p on, and returns where they end.
    fn entries(&mut self, class: ClassFile, e: Entry, n: usize, p: usize) -> usize
        requires p_in_bounds { p ≤ length class.file.now }
        requires p_value { entries_good e class.file.now class.pool.now n p ≡ true }
        requires room { Room self.old.out.now self.old.at (entries_items e class.file.now class.pool.now n p) }
        ensures put { PutItems self.old.out.now self.old.at (entries_items e class.entry.file.now class.entry.pool.now n p) (entries_end e class.entry.file.now n p) self.new.out.now self.new.at result }
        ensures same { self.new.out.ghost_name ≡ self.old.out.ghost_name }
    {
        let mut next = p;
        for _i in 0..n {
            self.entry(class, e, next);
            next = e.end(class.file, next);
        }
        next
    }

    // Writes the records of the table at p, and returns where it ends.
    fn table(&mut self, class: ClassFile, e: Entry, p: usize) -> usize
        requires p_value { table_good e class.file.now class.pool.now p ≡ true }
        requires room { Room self.old.out.now self.old.at (table_items e class.file.now class.pool.now p) }
        ensures put { PutItems self.old.out.now self.old.at (table_items e class.entry.file.now class.entry.pool.now p) (table_end e class.entry.file.now p) self.new.out.now self.new.at result }
        ensures same { self.new.out.ghost_name ≡ self.old.out.ghost_name }
    {
        self.entries(class, e, be16(class.file, p), p + 2)
    }

    // Writes the records of the tables of a Module attribute from p on, and returns where they end.
    fn tables(&mut self, class: ClassFile, p: usize) -> usize
        requires p_value { tables_good class.file.now class.pool.now module_tables p ≡ true }
        requires room { Room self.old.out.now self.old.at (tables_items class.file.now class.pool.now module_tables p) }
        ensures put { PutItems self.old.out.now self.old.at (tables_items class.entry.file.now class.entry.pool.now module_tables p) (tables_end class.entry.file.now module_tables p) self.new.out.now self.new.at result }
        ensures same { self.new.out.ghost_name ≡ self.old.out.ghost_name }
    {
        let mut next = p;
        for e in MODULE_TABLES {
            next = self.table(class, e, next);
        }
        next
    }

    // Writes the records of a Module attribute whose contents start at p.
    pub fn module(&mut self, class: ClassFile, p: usize)
        requires p_in_bounds { p ≤ length class.file.now }
        requires p_value { is_entry Module class.file.now class.pool.now p ≡ true }
        requires tables_value { tables_good class.file.now class.pool.now module_tables (p + 6) ≡ true }
        requires room { Room self.old.out.now self.old.at (module_items class.file.now class.pool.now p) }
        ensures put { Put self.old.out.now self.old.at (bytes_of (module_items class.entry.file.now class.entry.pool.now p)) self.new.out.now self.new.at }
        ensures same { self.new.out.ghost_name ≡ self.old.out.ghost_name }
    {
        self.entry(class, Entry::Module, p);
        self.tables(class, p + 6);
    }
}

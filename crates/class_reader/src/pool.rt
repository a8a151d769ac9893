// The constant pool: where each constant stands, and the texts and names that an index gives.
ghost use Rattle.std.specs.Prelude.{◌≡◌, true, false, ◌||◌, ◌+◌, ◌≤◌, ◌<◌, length, get_or, leb, cond, Some, None, MatchOption, option_copied};
ghost use Rattle.records.specs.Order.{name_in};
ghost use Rattle.class_reader.specs.Pool.{widths, width_at, takes_two, is_defined, is_constant, is_tag, text_at, is_name_text, has_text, name_index, has_name, name_at, has_version, version_at};
ghost use Rattle.class_reader.specs.Table.{Filled};
ghost use Rattle.records.specs.declared.error.ModuleError.TheVariants.{DescriptorParseError};

use records::bytes::{be16, byte, part};
use records::error::ModuleError;
use records::name::printable;

// The tags of the constants that are read, and of those that differ from the others (4.4 of the JVM Specification).
const UTF8: usize = 1;

const LONG: usize = 5;

const DOUBLE: usize = 6;

pub const CLASS: usize = 7;

const DYNAMIC: usize = 17;

pub const MODULE: usize = 19;

pub const PACKAGE: usize = 20;

// The file is malformed at this offset.
#[derive(Clone, Copy)]
pub struct Fault {
    pub at: usize,
}

impl From<Fault> for ModuleError {
    ghost from_gives = { λ fault e. e ≡ DescriptorParseError fault.at };

    fn from(fault: Fault) -> ModuleError {
        ModuleError::DescriptorParseError(fault.at)
    }
}

// A class file with its constant pool: where the constant of each index stands.
// Kept: 0 where an index has no constant, since the table has two bytes for each index and no room for an Option.
#[derive(Clone, Copy)]
pub struct ClassFile<'a> {
    pub file: &'a [u8],
    pub pool: &'a [u16],
    ghost short: { length file.now ≤ 65535 },
}

// The bytes of a constant with this tag, of a Utf8 those before its text; 0 where there is no such tag. A case for each tag, in the
// order of the sections of the JVM Specification.
// Kept: 0 for no tag and numbers for tags, since one `match` with an arm for each tag, and its two clauses, are asked for as they stand.
fn fixed_width(tag: usize) -> usize
    ensures value { result ≡ get_or widths tag 0 }
    ensures upper_bound { result < 256 }
{
    match tag {
        7 => 3, // 4.4.1 Class
        9 => 5, // 4.4.2 Fieldref
        10 => 5, // 4.4.2 Methodref
        11 => 5, // 4.4.2 InterfaceMethodref
        8 => 3, // 4.4.3 String
        3 => 5, // 4.4.4 Integer
        4 => 5, // 4.4.4 Float
        5 => 9, // 4.4.5 Long
        6 => 9, // 4.4.5 Double
        12 => 5, // 4.4.6 NameAndType
        1 => 3, // 4.4.7 Utf8
        15 => 4, // 4.4.8 MethodHandle
        16 => 3, // 4.4.9 MethodType
        17 => 5, // 4.4.10 Dynamic
        18 => 5, // 4.4.10 InvokeDynamic
        19 => 3, // 4.4.11 Module
        20 => 3, // 4.4.12 Package
        _ => 0, // no such tag
    }
}

// The bytes that the constant at `at` takes, by its tag.
#[tactic(auto, unfolding(crate::specs::Pool::width_at, crate::specs::Pool::tag_at))]
fn width(file: &[u8], at: usize) -> usize
    requires { at ≤ 65535 }
    ensures value { result ≡ width_at file.now at }
    ensures upper_bound { result ≤ 66000 }
{
    let tag = byte(file, at);
    let w = fixed_width(tag);
    if tag == UTF8 {
        return w + be16(file, at + 1);
    }
    w
}

// Whether it takes two indices.
#[tactic(auto, unfolding(crate::specs::Pool::takes_two, crate::specs::Pool::tag_at))]
fn takes_two(file: &[u8], at: usize) -> bool
    ensures { result ≡ takes_two file.now at }
{
    let tag = byte(file, at);
    tag == LONG || tag == DOUBLE
}

// Whether its tag is one of the file's version.
#[tactic(auto, unfolding(crate::specs::Pool::is_defined, crate::specs::Pool::tag_at))]
fn is_defined(file: &[u8], at: usize) -> bool
    ensures { result ≡ is_defined file.now at }
{
    let tag = byte(file, at);
    fixed_width(tag) != 0 && (tag != DYNAMIC || 55 <= be16(file, 6))
}

// Whether a constant stands at `at`, where `left` indices are left.
#[tactic(auto, unfolding(crate::specs::Pool::is_constant))]
fn is_constant(file: &[u8], at: usize, left: usize) -> bool
    requires { at ≤ 65535 }
    ensures { result ≡ is_constant file.now left at }
{
    is_defined(file, at)
        && at + width(file, at) <= file.len()
        && (!takes_two(file, at) || 2 <= left)
}

// Fills the table with the offsets of the constants with indices below `count`, 0 for an index that has none. No file of 65,535
// bytes has more than 21,845 constants.
pub fn fill(file: &[u8], count: usize, table: &mut [u16]) -> Result<usize, Fault>
    requires in_bounds { 10 ≤ length file.now }
    requires file_len_bound { length file.now ≤ 65535 }
    requires le_count { 1 ≤ count }
    requires table_value { leb count (length table.old) || leb 21846 (length table.old) ≡ true }
    ensures { Filled file.now count table.old table.new result }
{
    let mut at: usize = 10;
    // Index 0 has no constant, like the second index of one.
    let mut second = true;
    for i in 0..count {
        if second {
            table[i] = 0;
            second = false;
            continue;
        }
        if !is_constant(file, at, count - i) {
            return Err(Fault { at });
        }
        table[i] = at as u16;
        second = takes_two(file, at);
        at += width(file, at);
    }
    Ok(at)
}

// Whether the text obeys the name rule.
#[tactic(auto, unfolding(crate::specs::Pool::is_name_text))]
fn is_name_text(s: &[u8]) -> bool
    ensures { result ≡ is_name_text s.now }
{
    0 < s.len() && s.len() <= 255 && printable(s)
}

impl<'a> ClassFile<'a> {
    // Where constant i stands, if it is there.
    fn constant(self, i: usize) -> Option<usize>
        ensures { MatchOption result (get_or self.entry.pool.now i 0 ≡ 0) (λ at. (get_or self.entry.pool.now i 0 ≡ at) × (0 < at) × (at < 65536)) }
    {
        match self.pool.get(i) {
            Some(&at) if at != 0 => Some(at as usize),
            _ => None,
        }
    }

    // Whether constant i is there and has this tag.
    #[tactic(auto, unfolding(crate::specs::Pool::is_tag, crate::specs::Pool::tag_at))]
    fn is_tag(self, tag: usize, i: usize) -> bool
        ensures { result ≡ is_tag tag self.entry.file.now self.entry.pool.now i }
    {
        match self.constant(i) {
            Some(at) => byte(self.file, at) == tag,
            None => false,
        }
    }

    // The text of the Utf8 i.
    #[tactic(auto, unfolding(crate::specs::Pool::text_at))]
    fn text(self, i: usize) -> &'a [u8]
        ensures { result.now ≡ text_at self.entry.file.now self.entry.pool.now i }
    {
        let at = self.constant(i).unwrap_or(0);
        part(self.file, at + 3, be16(self.file, at + 1))
    }

    // The index of the name of constant i.
    #[tactic(auto, unfolding(crate::specs::Pool::name_index))]
    fn name_index(self, i: usize) -> usize
        ensures { result ≡ name_index self.entry.file.now self.entry.pool.now i }
    {
        let at = self.constant(i).unwrap_or(0);
        be16(self.file, at + 1)
    }

    // The name of constant i.
    #[tactic(auto, unfolding(crate::specs::Pool::name_at))]
    pub fn name(self, i: usize) -> &'a [u8]
        ensures { result.now ≡ name_at self.entry.file.now self.entry.pool.now i }
    {
        self.text(self.name_index(i))
    }

    // The same as an entry of a table of names: where it starts, times 65,536, and its length.
    // Kept: one number for both, since `records::order::insert` takes entries so.
    #[tactic(auto, using(crate::proofs::pool::Laws::entry_is))]
    pub fn name_entry(self, i: usize) -> usize
        ensures { name_in self.entry.file.now result ≡ name_at self.entry.file.now self.entry.pool.now i }
    {
        let at = self.constant(self.name_index(i)).unwrap_or(0);
        (at + 3) * 65536 + be16(self.file, at + 1)
    }

    // The version of this index, empty where that is 0.
    #[tactic(auto, unfolding(crate::specs::Pool::version_at))]
    pub fn version(self, i: usize) -> &'a [u8]
        ensures { result.now ≡ version_at self.entry.file.now self.entry.pool.now i }
    {
        if i == 0 { b"" } else { self.text(i) }
    }

    // The text of constant i, if that is a Utf8.
    pub fn utf8(self, i: usize) -> Option<&'a [u8]>
        ensures { option_copied result ≡ cond (is_tag 1 self.entry.file.now self.entry.pool.now i) (Some (text_at self.entry.file.now self.entry.pool.now i)) None }
    {
        if self.is_tag(UTF8, i) {
            Some(self.text(i))
        } else {
            None
        }
    }

    // The text of constant i, if that is a Utf8 that obeys the name rule.
    #[tactic(auto, unfolding(crate::specs::Pool::has_text))]
    fn good_text(self, i: usize) -> Option<&'a [u8]>
        ensures { option_copied result ≡ cond (has_text self.entry.file.now self.entry.pool.now i) (Some (text_at self.entry.file.now self.entry.pool.now i)) None }
    {
        let text = self.utf8(i)?;
        if is_name_text(text) { Some(text) } else { None }
    }

    // The name of constant i, if that has this tag and a name that obeys the name rule.
    #[tactic(auto, unfolding(crate::specs::Pool::has_name, crate::specs::Pool::name_at))]
    pub fn good_name(self, tag: usize, i: usize) -> Option<&'a [u8]>
        ensures { option_copied result ≡ cond (has_name tag self.entry.file.now self.entry.pool.now i) (Some (name_at self.entry.file.now self.entry.pool.now i)) None }
    {
        if self.is_tag(tag, i) {
            self.good_text(self.name_index(i))
        } else {
            None
        }
    }

    // The version of this index, if it is good: empty where the index is 0, else a text that obeys the name rule.
    #[tactic(auto, unfolding(crate::specs::Pool::has_version, crate::specs::Pool::version_at))]
    pub fn good_version(self, i: usize) -> Option<&'a [u8]>
        ensures { option_copied result ≡ cond (has_version self.entry.file.now self.entry.pool.now i) (Some (version_at self.entry.file.now self.entry.pool.now i)) None }
    {
        if i == 0 { Some(b"") } else { self.good_text(i) }
    }
}

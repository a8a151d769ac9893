// The entries of the attributes' tables: which constant names one, and where it ends.
ghost use Rattle.std.specs.Prelude.{◌≡◌, cond, Some, None, IfSome, ◌+◌, ◌*◌, ◌≤◌, length};
ghost use Rattle.class_reader.specs.Entry.{name_tag, kind_of, entry_end, names_good, names_at, names_bytes, list_bytes};
ghost use Rattle.class_reader.specs.Pool.{has_version, version_at};

use crate::pool::{CLASS, ClassFile, MODULE, PACKAGE};
use records::bytes::be16;
use records::record::Kind;

// What an entry says, and the record that it becomes.
#[derive(Clone, Copy)]
pub enum Entry {
    Module,
    Requires,
    Exports,
    Opens,
    Uses,
    Provides,
    Package,
    MainClass,
}

impl Entry {
    // The tag of the constant that names it.
    #[tactic(auto, unfolding(crate::specs::Entry::name_tag))]
    pub fn name_tag(self) -> usize
        ensures { result ≡ name_tag self }
    {
        match self {
            Entry::Module | Entry::Requires => MODULE,
            Entry::Exports | Entry::Opens | Entry::Package => PACKAGE,
            Entry::Uses | Entry::Provides | Entry::MainClass => CLASS,
        }
    }

    // The kind of its record.
    #[tactic(auto, unfolding(crate::specs::Entry::kind_of))]
    pub fn kind(self) -> Kind
        ensures { result ≡ kind_of self }
    {
        match self {
            Entry::Module => Kind::Module,
            Entry::Requires => Kind::Requires,
            Entry::Exports => Kind::Exports,
            Entry::Opens => Kind::Opens,
            Entry::Uses => Kind::Uses,
            Entry::Provides => Kind::Provides,
            Entry::Package => Kind::Package,
            Entry::MainClass => Kind::MainClass,
        }
    }

    // Where the entry at p ends.
    #[tactic(auto, unfolding(crate::specs::Entry::entry_end))]
    pub fn end(self, file: &[u8], p: usize) -> usize
        requires { p ≤ 65541 }
        ensures { result ≡ entry_end self file.now p }
    {
        match self {
            Entry::Module | Entry::Requires => p + 6,
            Entry::Exports | Entry::Opens => p + 6 + 2 * be16(file, p + 4),
            Entry::Provides => p + 4 + 2 * be16(file, p + 2),
            Entry::Uses | Entry::Package | Entry::MainClass => p + 2,
        }
    }
}

// The bytes that the names of n indices take, if all are good.
fn names_size(class: ClassFile, tag: usize, n: usize, p: usize) -> Option<usize>
    requires n_bound { n ≤ 65535 }
    requires p_bound { p ≤ 65547 }
    ensures value { result ≡ cond (names_good tag class.entry.file.now class.entry.pool.now n p) (Some (length (names_bytes (names_at class.entry.file.now class.entry.pool.now n p)))) None }
    ensures upper_bound { IfSome result (λ size. size ≤ 256 * n) }
{
    let mut size = 0;
    for i in 0..n {
        let name = class.good_name(tag, be16(class.file, p + 2 * i))?;
        size += 1 + name.len();
    }
    Some(size)
}

// The bytes that a list takes, if it is good.
#[tactic(auto, using(crate::proofs::entry::Laws::list_long))]
pub fn list_size(class: ClassFile, tag: usize, n: usize, p: usize) -> Option<usize>
    requires n_bound { n ≤ 65535 }
    requires p_bound { p ≤ 65547 }
    ensures value { result ≡ cond (names_good tag class.entry.file.now class.entry.pool.now n p) (Some (length (list_bytes class.entry.file.now class.entry.pool.now n p))) None }
    ensures upper_bound { IfSome result (λ size. size ≤ 2 + 256 * n) }
{
    Some(2 + names_size(class, tag, n, p)?)
}

// The bytes that a version takes, if it is good.
#[tactic(auto, using(crate::proofs::entry::Names::version_short))]
pub fn version_size(class: ClassFile, i: usize) -> Option<usize>
    ensures value { result ≡ cond (has_version class.entry.file.now class.entry.pool.now i) (Some (1 + length (version_at class.entry.file.now class.entry.pool.now i))) None }
    ensures upper_bound { IfSome result (λ size. size ≤ 256) }
{
    Some(1 + class.good_version(i)?.len())
}

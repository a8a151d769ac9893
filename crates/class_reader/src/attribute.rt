// The attributes: where each stands, which are read, and the first one at fault.
ghost use Rattle.std.specs.Prelude.{◌≡◌, ◌+◌, ◌≤◌, length, Ok, Err, IfOk, IfSome};
ghost use Rattle.class_reader.specs.Attribute.{attribute_named, attribute_end, seen_at, see, nothing_seen};
ghost use Rattle.class_reader.specs.Measure.{Small};
ghost use Rattle.class_reader.specs.Walk.{measure_contents, keep, Light, walk_named, walk_one, walk_end, walk_from};

use crate::entry::Entry;
use crate::measure::{Measured, measure, measure_module, measure_table};
use crate::pool::{ClassFile, Fault};
use records::bytes::{be16, same};

// The three attributes that are read, and all others.
#[derive(Clone, Copy)]
pub enum Attribute {
    Module,
    ModulePackages,
    ModuleMainClass,
    Other,
}

// Where each of the three stands, if it was met.
#[derive(Clone, Copy)]
pub struct Seen {
    pub descriptor: Option<usize>,
    pub packages: Option<usize>,
    pub main: Option<usize>,
}

// What was met, and the bytes of the records of its Module attribute: None where the body of one is over 65,535 bytes.
#[derive(Clone, Copy)]
pub struct Walked {
    pub seen: Seen,
    pub size: Option<usize>,
}

// The attribute of this name.
#[tactic(auto, unfolding(crate::specs::Attribute::attribute_named))]
fn attribute_named(s: &[u8]) -> Attribute
    ensures { result ≡ attribute_named s.now }
{
    if same(s, b"Module") {
        Attribute::Module
    } else if same(s, b"ModulePackages") {
        Attribute::ModulePackages
    } else if same(s, b"ModuleMainClass") {
        Attribute::ModuleMainClass
    } else {
        Attribute::Other
    }
}

// Where the attribute at `at` ends.
#[tactic(auto, unfolding(crate::specs::Attribute::attribute_end))]
fn attribute_end(file: &[u8], at: usize) -> usize
    requires { at ≤ 65535 }
    ensures value { result ≡ attribute_end file.now at }
    ensures behind { at + 6 ≤ result }
{
    at + 6 + (be16(file, at + 2) * 65536 + be16(file, at + 4))
}

// What the contents from p up to `end` measure, if they are good.
#[tactic(auto, unfolding(crate::specs::Walk::measure_contents))]
fn measure_contents(class: ClassFile, a: Attribute, p: usize, end: usize) -> Option<Measured>
    requires p_in_bounds { p ≤ length class.file.now }
    requires end_in_bounds { end ≤ length class.file.now }
    ensures value { result ≡ measure_contents a class.entry.file.now class.entry.pool.now p end }
    ensures small { IfSome result (λ measured. Small class.entry.file.now measured) }
{
    match a {
        Attribute::Module => measure_module(class, p),
        Attribute::ModulePackages => measure_table(class, Entry::Package, Measured::nothing(p)),
        Attribute::ModuleMainClass => measure(class, Entry::MainClass, 1, Measured::nothing(p)),
        Attribute::Other => Some(Measured::nothing(end)),
    }
}

impl Seen {
    // Where this one stands.
    #[tactic(auto, unfolding(crate::specs::Attribute::seen_at))]
    fn at(self, a: Attribute) -> Option<usize>
        ensures { result ≡ seen_at a self }
    {
        match a {
            Attribute::Module => self.descriptor,
            Attribute::ModulePackages => self.packages,
            Attribute::ModuleMainClass => self.main,
            Attribute::Other => None,
        }
    }
}

impl Walked {
    // This one is met, whose contents measure `size`.
    #[tactic(auto, unfolding(crate::specs::Attribute::see, crate::specs::Walk::keep))]
    fn meet(self, a: Attribute, at: usize, size: Option<usize>) -> Walked
        ensures { result ≡ record { seen = see a at self.seen; size = keep a self.size size } }
    {
        let seen = self.seen;
        match a {
            Attribute::Module => Walked {
                seen: Seen {
                    descriptor: Some(at),
                    ..seen
                },
                size,
            },
            Attribute::ModulePackages => Walked {
                seen: Seen {
                    packages: Some(at),
                    ..seen
                },
                ..self
            },
            Attribute::ModuleMainClass => Walked {
                seen: Seen {
                    main: Some(at),
                    ..seen
                },
                ..self
            },
            Attribute::Other => self,
        }
    }
}

// The attribute from `at` up to `end`, which is a.
#[tactic(auto, using(crate::proofs::attribute::Laws::contents_good_lem, crate::proofs::attribute::Laws::keep_light), unfolding(crate::specs::Walk::walk_named))]
fn walk_named(
    class: ClassFile,
    walked: Walked,
    a: Attribute,
    at: usize,
    end: usize,
) -> Result<Walked, Fault>
    requires at_bound { at + 6 ≤ end }
    requires end_in_bounds { end ≤ length class.file.now }
    requires light { Light walked.size }
    ensures value { result ≡ walk_named a class.entry.file.now class.entry.pool.now walked at end }
    ensures light_result { IfOk result (λ w. Light w.size) }
{
    if walked.seen.at(a).is_some() {
        return Err(Fault { at });
    }
    let Some(contents) = measure_contents(class, a, at + 6, end) else {
        return Err(Fault { at });
    };
    if contents.next != end {
        return Err(Fault { at });
    }
    Ok(walked.meet(a, at, contents.size))
}

// The attribute from `at` up to `end`.
#[tactic(auto, unfolding(crate::specs::Walk::walk_one, crate::specs::Attribute::attribute_at))]
fn walk_one(class: ClassFile, walked: Walked, at: usize, end: usize) -> Result<Walked, Fault>
    requires end_value { end ≡ attribute_end class.file.now at }
    requires at_bound { at + 6 ≤ end }
    requires light { Light walked.size }
    ensures value { result ≡ walk_one class.entry.file.now class.entry.pool.now walked at }
    ensures light_result { IfOk result (λ w. Light w.size) }
    ensures within { IfOk result (λ w. end ≤ length class.entry.file.now) }
{
    if class.file.len() < end {
        return Err(Fault { at });
    }
    let Some(name) = class.utf8(be16(class.file, at)) else {
        return Err(Fault { at });
    };
    walk_named(class, walked, attribute_named(name), at, end)
}

// What stands behind the last attribute.
#[tactic(auto, unfolding(crate::specs::Walk::walk_end))]
fn walk_end(file: &[u8], walked: Walked, at: usize) -> Result<Walked, Fault>
    ensures value { result ≡ walk_end file.now walked at }
    ensures same { IfOk result (λ w. w ≡ walked) }
{
    if at != file.len() {
        return Err(Fault { at });
    }
    if walked.seen.descriptor.is_none() {
        return Err(Fault { at: file.len() });
    }
    Ok(walked)
}

// n attributes from `at` on.
pub fn walk(class: ClassFile, n: usize, at: usize) -> Result<Walked, Fault>
    requires { at ≤ length class.file.now }
    ensures value { result ≡ walk_from class.entry.file.now class.entry.pool.now n nothing_seen at }
    ensures light { IfOk result (λ w. Light w.size) }
{
    let mut walked = Walked {
        seen: Seen {
            descriptor: None,
            packages: None,
            main: None,
        },
        size: None,
    };
    let mut b = at;
    for _i in 0..n {
        let end = attribute_end(class.file, b);
        walked = walk_one(class, walked, b, end)?;
        b = end;
    }
    walk_end(class.file, walked, b)
}

// Records: a two-byte mark, a two-byte body length, the body. A cursor walks them.
ghost use Rattle.std.specs.Prelude.{◌≡◌, [], ◌∷◌, map, get_or, take, drop};
ghost use Rattle.records.specs.Name.{name_of};
ghost use Rattle.records.specs.Record.{step_at, mark_for, set_kind, request_kind, kind_in, is_module, is_requires, is_body, next_of, nth_of, bodies, begins as beginsWith, first_of};

use crate::bytes::{be16, byte, part, same, tail};
use crate::error::Input;
use crate::name::{after_name, is_list, is_name_list, is_name_version, is_names, name_of};

// A position in a row of records.
#[derive(Clone, Copy)]
pub struct Cursor {
    pub at: usize,
}

// What a cursor finds.
// Kept: one match tells the three outcomes apart; as a Result of an Option, both checks would need a map_err, which is no plainer.
#[derive(Clone, Copy)]
pub enum Step {
    // A whole record: its body starts at start and is len bytes long; next is past it.
    Record {
        mark: usize,
        start: usize,
        len: usize,
        next: Cursor,
    },
    // A record that is cut off.
    Bad,
    // Nothing left.
    End,
}

// The body of a record that a cursor finds: it starts at start and is len bytes long; next is past it.
#[derive(Clone, Copy)]
pub struct Span {
    pub start: usize,
    pub len: usize,
    pub next: Cursor,
}

// The kinds of record. A set has the first nine, a request the next six.
#[derive(Clone, Copy)]
pub enum Kind {
    Module,
    Requires,
    Exports,
    Opens,
    Uses,
    Provides,
    Package,
    MainClass,
    Place,
    Root,
    LimitModules,
    AddReads,
    AddExports,
    AddOpens,
    Static,
    Other,
}

impl Span {
    // The body.
    pub fn of(self, s: &[u8]) -> &[u8]
        ensures { result.now ≡ take self.len (drop self.start s.now) }
    {
        part(s, self.start, self.len)
    }
}

impl Cursor {
    #[tactic(auto, using(crate::proofs::record::Laws::step_laws))]
    pub fn step(self, s: &[u8]) -> Step
        ensures { result ≡ step_at s.now self.at }
    {
        let at = self.at;
        if s.len() <= at {
            return Step::End;
        }
        if s.len() - at < 4 {
            return Step::Bad;
        }
        let mark = be16(s, at);
        let len = be16(s, at + 2);
        let start = at + 4;
        if s.len() - start < len {
            return Step::Bad;
        }
        Step::Record {
            mark,
            start,
            len,
            next: Cursor { at: start + len },
        }
    }

    // The first record of this kind from here on. What is no whole record ends the search.
    #[tactic(auto, using(crate::proofs::record::Bodies::next_laws))]
    pub fn next(self, s: &[u8], kind: Kind) -> Option<Span>
        ensures { result ≡ next_of kind s.now self.at }
    {
        let wanted = kind.mark();
        let mut c = self;
        while let Step::Record {
            mark,
            start,
            len,
            next,
        } = c.step(s)
        {
            if mark == wanted {
                return Some(Span { start, len, next });
            }
            c = next;
        }
        None
    }
}

impl Kind {
    // The mark of a kind.
    #[tactic(auto, unfolding(crate::specs::Record::mark_for))]
    pub fn mark(self) -> usize
        ensures { result ≡ mark_for self }
    {
        match self {
            Kind::Module => 0x4D4F,
            Kind::Requires => 0x5251,
            Kind::Exports => 0x4558,
            Kind::Opens => 0x4F50,
            Kind::Uses => 0x5553,
            Kind::Provides => 0x5056,
            Kind::Package => 0x504B,
            Kind::MainClass => 0x4D43,
            Kind::Place => 0x504C,
            Kind::Root => 0x5254,
            Kind::LimitModules => 0x4C4D,
            Kind::AddReads => 0x4152,
            Kind::AddExports => 0x4145,
            Kind::AddOpens => 0x414F,
            Kind::Static => 0x5354,
            Kind::Other => 0,
        }
    }
}

// The kind of a record of a set, by its mark.
#[tactic(auto, unfolding(crate::specs::Record::set_kind))]
pub fn set_kind(mark: usize) -> Kind
    ensures { result ≡ set_kind mark }
{
    match mark {
        0x4D4F => Kind::Module,
        0x5251 => Kind::Requires,
        0x4558 => Kind::Exports,
        0x4F50 => Kind::Opens,
        0x5553 => Kind::Uses,
        0x5056 => Kind::Provides,
        0x504B => Kind::Package,
        0x4D43 => Kind::MainClass,
        0x504C => Kind::Place,
        _ => Kind::Other,
    }
}

// The kind of a record of a request.
#[tactic(auto, unfolding(crate::specs::Record::request_kind))]
pub fn request_kind(mark: usize) -> Kind
    ensures { result ≡ request_kind mark }
{
    match mark {
        0x5254 => Kind::Root,
        0x4C4D => Kind::LimitModules,
        0x4152 => Kind::AddReads,
        0x4145 => Kind::AddExports,
        0x414F => Kind::AddOpens,
        0x5354 => Kind::Static,
        _ => Kind::Other,
    }
}

// The kind of a record, by its mark and by what it stands in.
#[tactic(auto, unfolding(crate::specs::Record::kind_in, crate::specs::Record::package_kind))]
pub fn kind_in(input: Input, mark: usize) -> Kind
    ensures { result ≡ kind_in input mark }
{
    match input {
        Input::Set => set_kind(mark),
        Input::Request => request_kind(mark),
        Input::Packages if mark == 0x504B => Kind::Package,
        Input::Packages => Kind::Other,
    }
}

// The body of MO.
#[tactic(auto, unfolding(crate::specs::Record::is_module))]
pub fn is_module(b: &[u8]) -> bool
    ensures { result ≡ is_module b.now }
{
    if 1 < byte(b, 2) {
        return false;
    }
    is_name_version(tail(b, 3))
}

// The body of RQ.
#[tactic(auto, unfolding(crate::specs::Record::is_requires))]
pub fn is_requires(b: &[u8]) -> bool
    ensures { result ≡ is_requires b.now }
{
    let t = tail(b, 2);
    let n = name_of(t);
    if same(n, b"ALL-UNNAMED") {
        return false;
    }
    is_name_version(t)
}

// Whether b is a well-formed body of this kind.
#[tactic(auto, unfolding(crate::specs::Record::is_body))]
pub fn is_body(kind: Kind, b: &[u8]) -> bool
    ensures { result ≡ is_body kind b.now }
{
    match kind {
        Kind::Module => is_module(b),
        Kind::Requires => is_requires(b),
        Kind::Exports => is_name_list(b),
        Kind::Opens => is_name_list(b),
        Kind::Uses => is_names(b, 1),
        Kind::Provides => is_name_list(b),
        Kind::Package => is_names(b, 1),
        Kind::MainClass => is_names(b, 1),
        Kind::Place => is_names(b, 0),
        Kind::Root => is_names(b, 1),
        Kind::LimitModules => is_list(b),
        Kind::AddReads => is_names(b, 2),
        Kind::AddExports => is_names(b, 3),
        Kind::AddOpens => is_names(b, 3),
        Kind::Static => is_names(b, 0),
        Kind::Other => false,
    }
}

// Record k of this kind.
#[tactic(auto, using(crate::proofs::record::Bodies::nth_laws))]
pub fn nth(s: &[u8], kind: Kind, k: usize) -> Option<Span>
    ensures { result ≡ nth_of kind k s.now }
{
    let mut c = Cursor { at: 0 };
    for _ in 0..k {
        c = c.next(s, kind)?.next;
    }
    c.next(s, kind)
}

// The body of record k of this kind, nothing where there are fewer.
#[tactic(auto, using(crate::proofs::record::Bodies::body_laws))]
pub fn body(s: &[u8], kind: Kind, k: usize) -> &[u8]
    ensures { result.now ≡ get_or (bodies kind s.now) k [] }
{
    match nth(s, kind, k) {
        Some(span) => span.of(s),
        None => &s[..0],
    }
}

// Whether the body begins with these names.
#[tactic(auto, using(crate::proofs::record::Search::begins_laws))]
fn begins(body: &[u8], names: &[&[u8]]) -> bool
    ensures { result ≡ beginsWith (map (λ name. name.now) names.now) body.now }
{
    let mut t = body;
    for name in names {
        if !same(name_of(t), name) {
            return false;
        }
        t = after_name(t);
    }
    true
}

// The first record of this kind whose body begins with these names.
#[tactic(auto, using(crate::proofs::record::Search::first_laws))]
pub fn find_body(s: &[u8], kind: Kind, names: &[&[u8]]) -> Option<Span>
    ensures { result ≡ first_of kind (map (λ name. name.now) names.now) s.now }
{
    let mut at = Cursor { at: 0 };
    while let Some(span) = at.next(s, kind) {
        if begins(span.of(s), names) {
            return Some(span);
        }
        at = span.next;
    }
    None
}

// The name in front of record k of this kind, nothing where there are fewer: root k of a request, package k or used service k
// of a module.
#[tactic(auto, using(crate::proofs::record::Bodies::nth_name_laws))]
pub fn nth_name(s: &[u8], kind: Kind, k: usize) -> &[u8]
    ensures { result.now ≡ get_or (map name_of (bodies kind s.now)) k [] }
{
    name_of(body(s, kind, k))
}

// A request: its check, and what it says. Package records are checked the same way.
ghost use Rattle.std.specs.Prelude.{◌≡◌, [], map};
ghost use Rattle.records.specs.Record.{kind_in, bodies};
ghost use Rattle.records.specs.Sorted.{Indexed, IndexedSet};
ghost use Rattle.records.specs.Request.{row_of, check_records, check_inputs, request_of, is_permitted, grant_of, has_read, has_grant};

use crate::bytes::{part, same};
use crate::error::{Input, ModuleError};
use crate::name::list_has;
use crate::record::{Cursor, Kind, Step, find_body, is_body, kind_in};
use crate::set::{Checked, check_set_with};
use crate::sorted::INDEX_LENGTH;

// Which of the records that stand at most once were passed: an LM, an ST.
#[derive(Clone, Copy)]
pub struct Once {
    pub limited: bool,
    pub statics: bool,
}

// The record with this mark and body, after these: which of them were passed then, nothing where it is at fault.
#[tactic(auto, using(crate::proofs::request::Laws::row_laws))]
fn judge(input: Input, once: Once, mark: usize, body: &[u8]) -> Option<Once>
    ensures { result ≡ row_of once (kind_in input mark) body.now }
{
    let kind = kind_in(input, mark);
    if !is_body(kind, body) {
        return None;
    }
    match kind {
        Kind::LimitModules => {
            if once.limited {
                return None;
            }
            Some(Once {
                limited: true,
                statics: once.statics,
            })
        }
        Kind::Static => {
            if once.statics {
                return None;
            }
            Some(Once {
                limited: once.limited,
                statics: true,
            })
        }
        _ => Some(once),
    }
}

// The check of a request, or of package records: the length, then the records from front to back.
#[tactic(auto, using(crate::proofs::request::Laws::check_laws))]
pub fn check_records(input: Input, s: &[u8]) -> Result<(), ModuleError>
    ensures { result ≡ check_records input s.now }
{
    if 65535 < s.len() {
        return Err(ModuleError::TooLarge(0));
    }
    let mut c = Cursor { at: 0 };
    let mut once = Once {
        limited: false,
        statics: false,
    };
    loop {
        let at = c.at;
        match c.step(s) {
            Step::Record {
                mark,
                start,
                len,
                next,
            } => {
                c = next;
                match judge(input, once, mark, part(s, start, len)) {
                    Some(passed) => once = passed,
                    None => return Err(ModuleError::Malformed(input, at)),
                }
            }
            Step::Bad => return Err(ModuleError::Malformed(input, at)),
            Step::End => return Ok(()),
        }
    }
}

// The check of a set and a request: both lengths, the set, then the request. The index, which is empty before, gets the names of
// the set's modules.
#[tactic(auto, using(crate::proofs::request::Laws::inputs_laws))]
pub fn check_with(set: &[u8], request: &[u8], index: &mut [usize]) -> Result<Checked, ModuleError>
    requires { Indexed [] index.old }
    ensures value { result ≡ check_inputs set.now request.now }
    ensures indexed_set { IndexedSet set.now result index.new }
{
    if 65535 < request.len() {
        return Err(ModuleError::TooLarge(0));
    }
    let checked = check_set_with(set, index)?;
    check_records(Input::Request, request)?;
    Ok(checked)
}

// The same, for a caller that looks no module up.
#[tactic(auto, using(crate::proofs::sorted::Index::check_laws))]
pub fn check(set: &[u8], request: &[u8]) -> Result<Checked, ModuleError>
    ensures { result ≡ check_inputs set.now request.now }
{
    let mut index = [0usize; INDEX_LENGTH];
    check_with(set, request, &mut index)
}

// Whether the request permits the name.
#[tactic(auto, using(crate::proofs::request::Laws::permitted_laws))]
pub fn is_permitted(request: &[u8], name: &[u8]) -> bool
    ensures { result ≡ is_permitted (request_of request.now) name.now }
{
    if same(name, b"java.base") {
        return true;
    }
    let c = Cursor { at: 0 };
    match c.next(request, Kind::LimitModules) {
        Some(span) => list_has(span.of(request), name),
        None => true,
    }
}

// Whether the request has an ST.
#[tactic(auto, using(crate::proofs::request::Laws::static_told))]
pub fn has_static(request: &[u8]) -> bool
    ensures { result ≡ (request_of request.now).has_static }
{
    let c = Cursor { at: 0 };
    c.next(request, Kind::Static).is_some()
}

// Whether the request has an AR of these names.
#[tactic(auto, using(crate::proofs::request::Laws::read_told))]
pub fn has_read(request: &[u8], source: &[u8], target: &[u8]) -> bool
    ensures { result ≡ has_read (request_of request.now).add_reads source.now target.now }
{
    find_body(request, Kind::AddReads, &[source, target]).is_some()
}

// Whether the request has an AE, or an AO, of these names: kind says which.
#[tactic(auto, using(crate::proofs::request::Laws::grant_told))]
pub fn has_grant(request: &[u8], kind: Kind, source: &[u8], pkg: &[u8], target: &[u8]) -> bool
    ensures { result ≡ has_grant (map grant_of (bodies kind request.now)) source.now pkg.now target.now }
{
    find_body(request, kind, &[source, pkg, target]).is_some()
}

// Verdicts: whether a module may access a package of another, or reflect on it.
ghost use Rattle.std.specs.Prelude.{◌≡◌, ◌&&◌, ◌||◌};
ghost use Rattle.records.specs.Bytes.{same_bytes};
ghost use Rattle.records.specs.Name.{java_base, all_unnamed};
ghost use Rattle.records.specs.Descriptor.{descriptor_of};
ghost use Rattle.records.specs.Request.{request_of};
ghost use Rattle.records.specs.Set.{check_set};
ghost use Rattle.records.specs.Finder.{find_module};
ghost use Rattle.resolution.specs.Lookup.{Lookup};
ghost use Rattle.resolution.specs.Configuration.{edge_bit, unnamed_bit};
ghost use Rattle.access.specs.Access.{passes, reads_name, is_reflection, denied as deniedBy, pick_result, grants as grantsBy, granted as grantedBy, unnamed_granted, check_access};
ghost use Rattle.access.specs.Members.{verdict_by};
ghost use Rattle.access.specs.CanRead.{can_read};
ghost use Rattle.access.specs.declared.access.AccessCheckResult.TheVariants.{Allowed};

use crate::members::member;
use records::bytes::same;
use records::descriptor::{has_package, is_automatic, is_open, reaches};
use records::error::ModuleError;
use records::record::Kind;
use records::request::{check_with, has_grant};
use records::set::check_set_with;
use records::sorted::INDEX_LENGTH;
use resolution::configuration::{WORDS, reads, reads_unnamed};
use resolution::module_table::ModuleTable;

// What is asked.
#[derive(Clone, Copy)]
pub enum AccessKind {
    Access,
    Reflection,
}

#[derive(Clone, Copy)]
pub enum AccessCheckResult {
    Allowed,
    NotReadable,
    NotExported,
    NotOpened,
}

// The name is ALL-UNNAMED, and that is read.
fn is_unnamed(name: &[u8], unnamed: bool) -> bool
    ensures { result ≡ same_bytes name.now all_unnamed && unnamed }
{
    same(name, b"ALL-UNNAMED") && unnamed
}

// Whether an edge leads from i to the module of this name, or the name is ALL-UNNAMED and i reads that.
#[tactic(auto, using(crate::proofs::access::Laws::find_laws), unfolding(crate::specs::Access::passes))]
fn leads_to(table: &ModuleTable, words: &[u64], i: usize, to: &[u8]) -> bool
    ensures { result ≡ passes (edge_bit words.now i) (find_module table.now.set.now to.now) || (same_bytes to.now all_unnamed && unnamed_bit words.now i) }
{
    if is_unnamed(to, reads_unnamed(words, i)) {
        return true;
    }
    match table.find(to) {
        Some(j) => reads(words, i, j),
        None => false,
    }
}

// Whether there is a read edge between modules of these names.
#[tactic(auto, using(crate::proofs::access::Laws::reads_laws))]
fn reads_name(table: &ModuleTable, words: &[u64], from: &[u8], to: &[u8]) -> bool
    ensures { result ≡ reads_name table.now.set.now words.now from.now to.now }
{
    match member(table, words, from) {
        Some(i) => leads_to(table, words, i, to),
        None => false,
    }
}

// A read edge, or target java.base.
fn readable(edge: bool, target: &[u8]) -> bool
    ensures { result ≡ edge || same_bytes target.now java_base }
{
    edge || same(target, b"java.base")
}

// Whether the asker may access the package of the target, or reflect on it; the request may override what the target says.
#[derive(Clone, Copy)]
struct Question<'a> {
    request: &'a [u8],
    kind: AccessKind,
    asker: &'a [u8],
    target: &'a [u8],
    pkg: &'a [u8],
}

// Where the target is a member, `found` is its position.
impl<'a> Question<'a> {
    ghost use Rattle.access.specs.Question.{reflection, is_overridden, target_in};

    // An AE of the request, or an AO, of these names.
    #[tactic(auto, unfolding(crate::specs::Access::grants_of, records::specs::Request::request_of))]
    fn has_override(&self) -> bool
        ensures { result ≡ is_overridden self.now }
    {
        let kind = match self.kind {
            AccessKind::Access => Kind::AddExports,
            AccessKind::Reflection => Kind::AddOpens,
        };
        has_grant(self.request, kind, self.target, self.pkg, self.asker)
    }

    // What a block's module itself says: an automatic one, for reflection also an open one, by its packages, any other by its first
    // EX of the package, or OP.
    #[tactic(auto, unfolding(crate::specs::Access::grants, crate::specs::Access::entries_of, records::specs::Descriptor::descriptor_of))]
    fn grants(&self, block: &[u8]) -> bool
        ensures { result ≡ grantsBy (reflection self.now) (descriptor_of block.now) self.now.pkg.now self.now.asker.now }
    {
        if is_automatic(block) {
            return has_package(block, self.pkg);
        }
        match self.kind {
            AccessKind::Access => reaches(block, Kind::Exports, self.pkg, self.asker),
            AccessKind::Reflection => {
                if is_open(block) {
                    return has_package(block, self.pkg);
                }
                reaches(block, Kind::Opens, self.pkg, self.asker)
            }
        }
    }

    // An override, or what the target says, where it is resolved.
    #[tactic(auto, unfolding(crate::specs::Access::granted, crate::specs::Members::module_of))]
    fn granted(&self, table: &ModuleTable, found: Option<usize>) -> bool
        ensures { result ≡ is_overridden self.now || grantedBy (reflection self.now) (target_in table.now found) self.now.pkg.now self.now.asker.now }
    {
        if self.has_override() {
            return true;
        }
        match found {
            Some(i) => self.grants(table.block(i)),
            None => false,
        }
    }

    // Asker ALL-UNNAMED: an unresolved target is denied, and at an automatic one no override helps.
    #[tactic(auto, unfolding(crate::specs::Access::unnamed_granted, crate::specs::Access::granted, crate::specs::Members::module_of))]
    fn unnamed_granted(&self, table: &ModuleTable, found: Option<usize>) -> bool
        ensures { result ≡ unnamed_granted (reflection self.now) (request_of self.now.request.now) self.now.target.now self.now.pkg.now (target_in table.now found) }
    {
        match found {
            Some(i) => {
                let b = table.block(i);
                if is_automatic(b) {
                    return has_package(b, self.pkg);
                }
                let unnamed = Question {
                    asker: b"ALL-UNNAMED",
                    ..*self
                };
                unnamed.granted(table, found)
            }
            None => false,
        }
    }

    // The verdict where the target is readable.
    #[tactic(auto, unfolding(crate::specs::Access::denied, crate::specs::Access::pick_result))]
    fn allowed(&self, granted: bool) -> AccessCheckResult
        ensures { result ≡ pick_result granted Allowed (deniedBy (reflection self.now)) }
    {
        if granted {
            return AccessCheckResult::Allowed;
        }
        match self.kind {
            AccessKind::Access => AccessCheckResult::NotExported,
            AccessKind::Reflection => AccessCheckResult::NotOpened,
        }
    }

    // The verdict, by whether a read edge leads from the asker to the target.
    #[tactic(auto, unfolding(crate::specs::Members::verdict_by))]
    fn verdict(&self, table: &ModuleTable, found: Option<usize>, edge: bool) -> AccessCheckResult
        ensures { result ≡ verdict_by (reflection self.now) (request_of self.now.request.now) (target_in table.now found) (edge || same_bytes self.now.target.now java_base) self.now.asker.now self.now.target.now self.now.pkg.now }
    {
        if same(self.asker, self.target) {
            return AccessCheckResult::Allowed;
        }
        if same(self.asker, b"ALL-UNNAMED") {
            return self.allowed(self.unnamed_granted(table, found));
        }
        if readable(edge, self.target) {
            return self.allowed(self.granted(table, found));
        }
        AccessCheckResult::NotReadable
    }
}

// Whether the asker may access the package of the target, or reflect on it, over the words of a configuration. The set and the request
// are checked first, then the number of words.
#[tactic(auto, using(crate::proofs::access::Laws::answer_laws))]
pub fn check_access(
    set: &[u8],
    request: &[u8],
    words: &[u64],
    kind: AccessKind,
    asker: &[u8],
    target: &[u8],
    pkg: &[u8],
) -> Result<AccessCheckResult, ModuleError>
    ensures { result ≡ check_access (is_reflection kind) set.now request.now words.now asker.now target.now pkg.now }
{
    let mut index = [0usize; INDEX_LENGTH];
    let checked = check_with(set, request, &mut index)?;
    if words.len() < WORDS {
        return Err(ModuleError::OutputTooShort(WORDS));
    }
    let table = ModuleTable::new(set, &checked, &index);
    let found = member(&table, words, target);
    let edge = reads_name(&table, words, asker, target);
    let question = Question {
        request,
        kind,
        asker,
        target,
        pkg,
    };
    Ok(question.verdict(&table, found, edge))
}

// Whether a module of the first name can read one of the second: equal names, java.base, or a read edge.
#[tactic(auto, using(crate::proofs::access::Laws::can_laws))]
pub fn can_read(set: &[u8], words: &[u64], from: &[u8], to: &[u8]) -> Result<bool, ModuleError>
    ensures { result ≡ can_read set.now words.now from.now to.now }
{
    let mut index = [0usize; INDEX_LENGTH];
    let checked = check_set_with(set, &mut index)?;
    if words.len() < WORDS {
        return Err(ModuleError::OutputTooShort(WORDS));
    }
    if same(from, to) {
        return Ok(true);
    }
    let table = ModuleTable::new(set, &checked, &index);
    let edge = reads_name(&table, words, from, to);
    Ok(readable(edge, to))
}

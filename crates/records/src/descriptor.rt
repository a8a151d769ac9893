// What the block of a module says: MO and the records up to the next MO or PL.
ghost use Rattle.std.specs.Prelude.{◌≡◌, ◌<◌, map};
ghost use Rattle.records.specs.Name.{mem_name, name_of};
ghost use Rattle.records.specs.Record.{bodies};
ghost use Rattle.records.specs.Descriptor.{has_flag, descriptor_of, requirement_of, entry_of, reaches as entriesReach};

use crate::bytes::{be16, byte, tail};
use crate::name::{after_name, list_has, name_of};
use crate::record::{Kind, body, find_body};

// The flag of an open module.
const OPEN: usize = 0x20;

// The flags of a requirement.
const TRANSITIVE: usize = 0x20;

const STATIC: usize = 0x40;

// Whether the flag of this value is set.
#[tactic(auto, unfolding(crate::specs::Descriptor::has_flag))]
fn has_flag(flags: usize, bit: usize) -> bool
    requires { 0 < bit }
    ensures { result ≡ has_flag bit flags }
{
    flags / bit % 2 == 1
}

// The name of a block's module.
#[tactic(auto, unfolding(crate::specs::Descriptor::descriptor_of, crate::specs::Descriptor::header_of, crate::specs::Descriptor::module_name))]
pub fn name(block: &[u8]) -> &[u8]
    ensures { result.now ≡ (descriptor_of block.now).name }
{
    name_of(tail(body(block, Kind::Module, 0), 3))
}

// Whether the module is open.
#[tactic(auto, unfolding(crate::specs::Descriptor::descriptor_of, crate::specs::Descriptor::header_of))]
pub fn is_open(block: &[u8]) -> bool
    ensures { result ≡ (descriptor_of block.now).is_open }
{
    has_flag(be16(body(block, Kind::Module, 0), 0), OPEN)
}

// Whether the module is automatic.
#[tactic(auto, unfolding(crate::specs::Descriptor::descriptor_of, crate::specs::Descriptor::header_of))]
pub fn is_automatic(block: &[u8]) -> bool
    ensures { result ≡ (descriptor_of block.now).is_automatic }
{
    byte(body(block, Kind::Module, 0), 2) == 1
}

// The name that the body of an RQ requires.
#[tactic(auto, unfolding(crate::specs::Descriptor::requirement_of))]
pub fn required(body: &[u8]) -> &[u8]
    ensures { result.now ≡ (requirement_of body.now).name }
{
    name_of(tail(body, 2))
}

// Whether the requirement is transitive.
#[tactic(auto, unfolding(crate::specs::Descriptor::requirement_of))]
pub fn is_transitive(body: &[u8]) -> bool
    ensures { result ≡ (requirement_of body.now).transitive }
{
    has_flag(be16(body, 0), TRANSITIVE)
}

// Whether the requirement is static.
#[tactic(auto, unfolding(crate::specs::Descriptor::requirement_of))]
pub fn is_static(body: &[u8]) -> bool
    ensures { result ≡ (requirement_of body.now).static }
{
    has_flag(be16(body, 0), STATIC)
}

// Whether a record of this kind has this name in front.
#[tactic(auto, using(crate::proofs::descriptor::Laws::named_told))]
pub fn has_named(block: &[u8], kind: Kind, name: &[u8]) -> bool
    ensures { result ≡ mem_name name.now (map name_of (bodies kind block.now)) }
{
    find_body(block, kind, &[name]).is_some()
}

// Whether the module has the package.
#[tactic(auto, unfolding(crate::specs::Descriptor::descriptor_of))]
pub fn has_package(block: &[u8], pkg: &[u8]) -> bool
    ensures { result ≡ mem_name pkg.now (descriptor_of block.now).packages }
{
    has_named(block, Kind::Package, pkg)
}

// Whether the module provides the service.
#[tactic(auto, unfolding(crate::specs::Descriptor::descriptor_of))]
pub fn provides(block: &[u8], service: &[u8]) -> bool
    ensures { result ≡ mem_name service.now (descriptor_of block.now).provides }
{
    has_named(block, Kind::Provides, service)
}

// Whether the module uses the service.
#[tactic(auto, unfolding(crate::specs::Descriptor::descriptor_of))]
pub fn uses(block: &[u8], service: &[u8]) -> bool
    ensures { result ≡ mem_name service.now (descriptor_of block.now).uses }
{
    has_named(block, Kind::Uses, service)
}

// The main class of the module, nothing where there is none.
#[tactic(auto, unfolding(crate::specs::Descriptor::descriptor_of))]
pub fn main_class(block: &[u8]) -> &[u8]
    ensures { result.now ≡ (descriptor_of block.now).main_class }
{
    name_of(body(block, Kind::MainClass, 0))
}

// Whether the first entry of the package, among those of this kind, is unqualified or names the target.
#[tactic(auto, using(crate::proofs::descriptor::Laws::reaches_laws))]
pub fn reaches(block: &[u8], kind: Kind, pkg: &[u8], target: &[u8]) -> bool
    ensures { result ≡ entriesReach (map entry_of (bodies kind block.now)) pkg.now target.now }
{
    match find_body(block, kind, &[pkg]) {
        Some(span) => {
            let targets = after_name(span.of(block));
            if be16(targets, 0) == 0 {
                return true;
            }
            list_has(targets, target)
        }
        None => false,
    }
}

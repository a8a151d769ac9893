// The jar reader: the records of an automatic module, for a jar and its packages.
ghost use Rattle.std.specs.Prelude.{◌*◌, ◌≤◌, [], length, is_some, unwrap_or, option_copied};
ghost use Rattle.records.specs.Automatic.{derived_name, derived, validated};
ghost use Rattle.records.specs.Jar.{Ordered, Fitted, NamedRead, JarRead};

use crate::automatic::{derive_automatic_module_name, validate_module_name};
use crate::bytes::head;
use crate::error::{Input, ModuleError};
use crate::order::ordered_packages;
use crate::output::{size, write_records};
use crate::request::check_records;

// Writes the records of the module of this name, if the output has room. The table tells its packages in order.
#[tactic(auto, using(crate::proofs::jar::Laws::fitted_laws))]
fn write_ordered(
    name: &[u8],
    packages: &[u8],
    table: &[usize],
    count: usize,
    out: &mut [u8],
) -> Result<usize, ModuleError>
    requires name_len_bound { length name.now ≤ 255 }
    requires ordered { Ordered packages.now table.now count }
    ensures { Fitted name.now packages.now out.old out.new result }
{
    let n = 26 + name.len() + size(packages, table, count);
    if out.len() < n {
        return Err(ModuleError::OutputTooShort(n));
    }
    write_records(out, name, packages, table, count);
    Ok(n)
}

// The same, with the packages put in order first.
#[tactic(auto, using(crate::proofs::jar::Laws::write_in_order_laws))]
fn write_in_order(
    name: &[u8],
    packages: &[u8],
    table: &mut [usize],
    out: &mut [u8],
) -> Result<usize, ModuleError>
    requires name_len_bound { length name.now ≤ 255 }
    requires packages_len_bound { length packages.now ≤ 65535 }
    requires table_room { length packages.now ≤ 4 * length table.old }
    ensures { Fitted name.now packages.now out.old out.new result }
{
    let count = ordered_packages(packages, table);
    write_ordered(name, packages, table, count, out)
}

// The same, with a table for as many packages as the records can tell: a small one is made sooner.
fn write_fitted(name: &[u8], packages: &[u8], out: &mut [u8]) -> Result<usize, ModuleError>
    requires name_len_bound { length name.now ≤ 255 }
    requires packages_len_bound { length packages.now ≤ 65535 }
    ensures { Fitted name.now packages.now out.old out.new result }
{
    if packages.len() <= 1024 {
        let mut table = [0usize; 256];
        return write_in_order(name, packages, &mut table, out);
    }
    let mut table = [0usize; 16384];
    write_in_order(name, packages, &mut table, out)
}

// The same for a name that the manifest gives.
#[tactic(auto, using(crate::proofs::jar::Laws::given_laws))]
fn write_given(manifest: &[u8], packages: &[u8], out: &mut [u8]) -> Result<usize, ModuleError>
    requires { length packages.now ≤ 65535 }
    ensures { NamedRead (validated manifest.now) manifest.now packages.now out.old out.new result }
{
    if validate_module_name(manifest) {
        return write_fitted(manifest, packages, out);
    }
    Err(ModuleError::InvalidModuleName)
}

// The same for the name that is derived from the jar's.
#[tactic(auto, using(crate::proofs::jar::Laws::derived_laws))]
fn write_derived(jar: &[u8], packages: &[u8], out: &mut [u8]) -> Result<usize, ModuleError>
    requires jar_len_bound { length jar.now ≤ 255 }
    requires packages_len_bound { length packages.now ≤ 65535 }
    ensures { NamedRead (derived jar.now) (derived_name jar.now) packages.now out.old out.new result }
{
    let text = derive_automatic_module_name(jar)?;
    let bytes = text.bytes;
    write_fitted(head(&bytes, text.len), packages, out)
}

// The records of an automatic module: its name is the manifest's where one is given, else derived from the name of the jar.
// How many bytes they are, or why nothing is written.
#[tactic(auto, using(crate::proofs::jar::Laws::jar_laws))]
pub fn automatic_from_jar_name(
    jar: &[u8],
    manifest: Option<&[u8]>,
    packages: &[u8],
    out: &mut [u8],
) -> Result<usize, ModuleError>
    ensures { JarRead jar.now (is_some manifest.entry) (unwrap_or (option_copied manifest.entry) []) packages.now out.old out.new result }
{
    if 255 < jar.len() {
        return Err(ModuleError::TooLarge(0));
    }
    check_records(Input::Packages, packages)?;
    match manifest {
        Some(name) => write_given(name, packages, out),
        None => write_derived(jar, packages, out),
    }
}

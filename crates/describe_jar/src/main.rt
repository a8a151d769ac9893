// Writes the records of an automatic module to a file, for the name of its jar or the name that the jar's manifest gives, and the
// package records in the file `packages`. The file is left alone on a refusal.
#![tactic(auto)]

use anyhow::{Context, Result, ensure};
use records::jar::automatic_from_jar_name;
use std::rt::{Env, Files};

// The name that the jar's manifest gives, where it is an argument.
fn manifest_arg<'a>(rt: &impl Env, buffer: &'a mut [u8]) -> Result<Option<&'a [u8]>> {
    if !files::has_arg(rt, 3) {
        return Ok(None);
    }
    files::arg(rt, 3, buffer)
        .map(Some)
        .context("describe_jar: MANIFEST-NAME")
}

fn run(rt: &(impl Env + Files + Print)) -> Result<()> {
    ensure!(
        files::has_arg(rt, 2) && !files::has_arg(rt, 4),
        "usage: describe_jar JARNAME OUT [MANIFEST-NAME]"
    );
    let mut jar = [0u8; 4096];
    let jar = files::arg(rt, 1, &mut jar).context("describe_jar: JARNAME")?;
    let mut out = [0u8; 4096];
    let out = files::arg(rt, 2, &mut out).context("describe_jar: OUT")?;
    let mut manifest = [0u8; 4096];
    let manifest = manifest_arg(rt, &mut manifest)?;
    let mut packages = [0u8; 65536];
    let packages = files::read(rt, b"packages", &mut packages).context(
        "describe_jar: cannot read the file packages",
    )?;
    let mut records = [0u8; 65536];
    let written = automatic_from_jar_name(jar, manifest, packages, &mut records);
    files::write_records(rt, out, written, &records).context("describe_jar: cannot write OUT")
}

fn main(rt: HostRuntime) {
    if let Err(e) = run(&rt) {
        let _ = eprintln!(rt; "{e:#}");
    }
}

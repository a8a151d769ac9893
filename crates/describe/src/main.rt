// Reads a module-info.class and writes the records of its module to a file, which is left alone on a refusal.
#![tactic(auto)]

use anyhow::{Context, Result, ensure};
use class_reader::class_file::from_class_file;
use std::rt::{Env, Files};

fn run(rt: &(impl Env + Files + Print)) -> Result<()> {
    ensure!(
        files::has_arg(rt, 2) && !files::has_arg(rt, 3),
        "usage: describe FILE OUT"
    );
    let mut name = [0u8; 4096];
    let file = files::arg(rt, 1, &mut name).context("describe: FILE")?;
    let mut name = [0u8; 4096];
    let out = files::arg(rt, 2, &mut name).context("describe: OUT")?;
    let mut class = [0u8; 65536];
    let class = files::read(rt, file, &mut class).context("describe: cannot read FILE")?;
    let mut records = [0u8; 65536];
    let written = from_class_file(class, &mut records);
    files::write_records(rt, out, written, &records).context("describe: cannot write OUT")
}

fn main(rt: HostRuntime) {
    if let Err(e) = run(&rt) {
        let _ = eprintln!(rt; "{e:#}");
    }
}

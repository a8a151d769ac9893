// Shows the limits of the inputs: what the checks and the jar reader answer at them, and where. What cannot be printed is passed over.
#![tactic(auto)]

use cases::Refusal;
use records::error::Input;
use records::jar::automatic_from_jar_name;
use records::request::check_records;
use records::set::check_set;
use std::rt::Files;

// As much of the file as can be read; nothing where it cannot be opened.
fn read<'a>(rt: &impl Files, file: &str, buffer: &'a mut [u8]) -> &'a [u8] {
    files::read_some(rt, file.as_bytes(), buffer).unwrap_or(b"")
}

fn show_set(rt: &(impl Files + Print), file: &str) {
    let mut buffer = [0u8; 65536];
    let _ = match check_set(read(rt, file, &mut buffer)) {
        Ok(checked) => println!(rt; "{file} modules {}", checked.count),
        Err(e) => println!(rt; "{file} {}", Refusal(e)),
    };
}

fn show_records(rt: &(impl Files + Print), input: Input, file: &str) {
    let mut buffer = [0u8; 65536];
    let _ = match check_records(input, read(rt, file, &mut buffer)) {
        Ok(()) => println!(rt; "{file} good"),
        Err(e) => println!(rt; "{file} {}", Refusal(e)),
    };
}

// What becomes of a jar of this name with these package records.
fn show_written(rt: &impl Print, name: &[u8], packages: &[u8], out: &mut [u8]) {
    let _ = match automatic_from_jar_name(name, None, packages, out) {
        Ok(n) => print!(rt; " written {n}"),
        Err(e) => print!(rt; " {}", Refusal(e)),
    };
}

// The same of a jar whose name is in a file: first into 4,096 bytes, then into 40.
fn show_jar(rt: &(impl Files + Print), file: &str, packages: &[u8]) {
    let mut buffer = [0u8; 4096];
    let name = read(rt, file, &mut buffer);
    let _ = print!(rt; "{file}");
    show_written(rt, name, packages, &mut [0u8; 4096]);
    let _ = print!(rt; ", into 40 bytes");
    show_written(rt, name, packages, &mut [0u8; 40]);
    let _ = println!(rt);
}

fn run(rt: &(impl Files + Print)) {
    for file in [
        "set-listing",
        "set-512-modules",
        "set-513-modules",
        "set-65535-bytes",
        "set-65536-bytes",
        "set-cut-off",
        "set-unknown-mark",
        "set-root-in-set",
        "set-static-in-set",
        "set-no-module-first",
        "set-requires-unnamed",
        "set-second-main-class",
        "set-repeated",
        "set-unnamed",
        "set-8-places",
        "set-9-places",
        "set-8-places-module-first",
        "set-9-places-module-first",
        "set-512-with-hidden",
        "set-513-with-hidden",
        "set-place-body",
        "set-place-requires",
        "set-repeated-in-place",
        "set-repeated-across-places",
    ] {
        show_set(rt, file);
    }
    for file in [
        "request-second-limit",
        "request-module",
        "request-65535-bytes",
        "request-second-static",
        "request-static-body",
    ] {
        show_records(rt, Input::Request, file);
    }
    show_records(rt, Input::Packages, "packages-export");
    show_records(rt, Input::Packages, "packages-three");
    for (file, packages) in [
        ("jar-255", &b""[..]),
        ("jar-256", b""),
        ("jar-foot-notes", b""),
        (
            "jar-foot-notes",
            b"PK\x00\x02\x01bPK\x00\x02\x01aPK\x00\x02\x01b",
        ),
        ("jar-two-versions", b""),
        ("jar-nothing", b""),
    ] {
        show_jar(rt, file, packages);
    }
}

fn main(rt: HostRuntime) {
    run(&rt);
}

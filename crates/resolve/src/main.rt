// Resolves the set and the request in the files `set` and `request`, and prints the configuration, or the number of the refusal; and on
// standard error the absent module, where one is, and which modules are hidden. A line that cannot be printed is passed over.
#![tactic(auto)]

mod hidden;
mod names;

ghost use Rattle.std.specs.Prelude.{◌≤◌, length};

use anyhow::{Context, Result};
use hidden::tell_hidden;
use messages::tell_absent;
use names::Resolved;
use records::bytes::before;
use records::order::name_in;
use records::record::Kind;
use records::set::check_set;
use resolution::configuration::{WORDS, len, reads, reads_unnamed};
use resolution::resolve::resolve;
use std::rt::Files;

// Of these names, those of the modules that module i reads.
fn print_reads(rt: &impl Print, resolved: &Resolved<'_>, names: &[usize], i: usize) {
    for entry in names {
        if reads(resolved.words, i, resolved.module_of(*entry)) {
            let _ = println!(rt; "reads {}", resolved.name(*entry));
        }
    }
}

// The members in byte order, and below each the names of the modules that it reads, with ALL-UNNAMED in its place among them. In an
// MO three bytes stand before the name.
fn print_modules(rt: &impl Print, resolved: &Resolved<'_>)
    requires { length resolved.now.set.now ≤ 65536 }
{
    let mut table = [0usize; 16384];
    let names = resolved.in_order(Kind::Module, 3, &mut table);
    let place = names.partition_point(|entry| before(
        name_in(resolved.set, *entry),
        b"ALL-UNNAMED",
    ));
    let (front, behind) = names.split_at(place);
    for entry in names {
        let i = resolved.module_of(*entry);
        let _ = println!(rt; "module {}", resolved.name(*entry));
        print_reads(rt, resolved, front, i);
        if reads_unnamed(resolved.words, i) {
            let _ = println!(rt; "reads ALL-UNNAMED");
        }
        print_reads(rt, resolved, behind, i);
    }
}

// The packages of the members in byte order, and beside each the module that has it.
fn print_owners(rt: &impl Print, resolved: &Resolved<'_>)
    requires { length resolved.now.set.now ≤ 65536 }
{
    let mut table = [0usize; 16384];
    for entry in resolved.in_order(Kind::Package, 0, &mut table) {
        let _ = println!(rt;
            "owner {} {}",
            resolved.name(*entry),
            resolved.module_name(*entry)
        );
    }
}

// The configuration that the set and its request resolve to.
#[tactic(auto, using(crate::proofs::hidden::Laws::hidden_laws))]
fn print_resolved(rt: &impl Print, set: &[u8], words: &[u64])
    requires { length set.now ≤ 65536 }
{
    let _ = println!(rt; "resolved {}", len(words));
    if let Ok(checked) = check_set(set) {
        let starts = &checked.starts[..checked.count];
        let resolved = Resolved { set, starts, words };
        print_modules(rt, &resolved);
        print_owners(rt, &resolved);
    }
}

fn run(rt: &(impl Files + Print + Eprint)) -> Result<()> {
    let mut set = [0u8; 65536];
    let set = files::read(rt, b"set", &mut set).context("resolve: cannot read the file set")?;
    let mut request = [0u8; 65536];
    let request = files::read(rt, b"request", &mut request).context(
        "resolve: cannot read the file request",
    )?;
    let mut words = [0u64; WORDS];
    let outcome = resolve(set, request, &mut words);
    match outcome {
        Ok(()) => print_resolved(rt, set, &words),
        Err(e) => {
            let _ = println!(rt; "refused {}", e.number());
        }
    }
    tell_absent(rt, set, request, outcome);
    tell_hidden(rt, set);
    Ok(())
}

fn main(rt: HostRuntime) {
    if let Err(e) = run(&rt) {
        let _ = eprintln!(rt; "{e:#}");
    }
}

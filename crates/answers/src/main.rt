// Replays the fixed list of answers in the files `cases` and `more`: resolutions with their refusals, verdicts, owners and readers over resolved
// and over other configurations, and records of jars. Each line tells the answer given here, and what differs from the stored one.
// tests/answers makes the list: by the original at the commit named in NOTICE, built unchanged; by compare/src/second.rs for static
// requirements without ST, which the original does not know; and by hand from document 01 and, for places, ST and words, U2, U6 and U12 of
// document 02 for what neither answers. Refusal 8 and class files are in the program `classes`.
//
// A text is its length in four bytes and its bytes. A row is eight words of positions, then one byte: 1 with ALL-UNNAMED, else 0. A
// configuration is the eight words of its members and a row for each position from 0 on. A refusal is which input (0 none, 1 set,
// 2 request, 3 package records), four bytes of offset or of what is needed, and two bytes each: length of the name or package at that
// offset, owner, second module. A case is the text of its name, its kind, and then
// R: texts of a set and a request, the number (0 where accepted), the text of the configuration or the refusal, the text of entries;
// C: texts of a set, a request, a configuration, entries; J: texts of a jar name, a manifest name and package records, whether the
// manifest name is given, whether the output has only 40 bytes, the number (0 where written), the text of the records or the refusal.
// An entry is 0, texts of asker, target and package, and the verdicts of access and reflection (0 to 3 in document order); or 1,
// the text of a package and its owner in two bytes (65,535 none); or 2, the text of a name and the rows of readers and of reads.
// What cannot be printed is passed over.
#![tactic(auto)]

mod question;
mod reads;
mod refusal;
mod rows;

ghost use Rattle.std.specs.Prelude.{◌≤◌, length};

use crate::question::Asked;
use crate::reads::{add_rows, has_rows, is_reads};
use crate::refusal::{Wanted, print_refusal};
use crate::rows::{is_filled, put_rows};
use cases::{Stored, report_unless};
use records::bytes::{head, tail};
use records::jar::automatic_from_jar_name;
use resolution::configuration::WORDS;
use resolution::resolve::resolve;
use std::alloc::AllocError;
use std::rt::Files;

// The words are those of the stored members and rows, and one behind them that is 7. The rows give the same words where each edge
// is added by itself. Tells how many edges there are.
fn expect_words(rt: &impl Print, words: &[u64], text: &[u8])
    requires { 4616 ≤ length words.now }
{
    let rows = tail(text, 64);
    let mut wanted = [7u64; 4617];
    put_rows(&mut wanted, &mut Stored { rest: text });
    report_unless(rt, words == &wanted[..], "words");
    report_unless(rt, has_rows(words, rows), "reads");
    let mut made = [0u64; WORDS];
    let _ = print!(rt; " reads {}", add_rows(&mut made, rows));
    report_unless(rt, is_reads(words, &made), "edges");
}

// One word too few: what is refused with 1 to 3 still is, all else is refused with 4. No word changes.
fn expect_short(rt: &impl Print, set: &[u8], request: &[u8], wanted: &Wanted<'_>) {
    let mut words = [7u64; 4615];
    match resolve(set, request, &mut words) {
        Ok(()) => report_unless(rt, false, "too few words"),
        Err(e) => wanted.expect_needed(rt, e),
    }
    report_unless(rt, is_filled(&words), "too few words changed");
}

// Texts of a set and a request, the stored number and what goes with it, and entries. Of the words lent one is too many, and stays
// as it is; so do all where it is refused.
fn resolution_case(rt: &impl Print, stored: &mut Stored<'_>) {
    let (set, request) = (stored.text(), stored.text());
    let (number, text) = (stored.byte(), stored.text());
    let wanted = Wanted { number, text };
    let entries = stored.text();
    let mut words = [7u64; 4617];
    match resolve(set, request, &mut words) {
        Ok(()) => {
            let words = &words;
            let _ = print!(rt; " resolved {}", resolution::configuration::len(words));
            report_unless(rt, number == 0, "number");
            expect_words(rt, words, text);
            Asked {
                set,
                request,
                words,
            }
            .ask(rt, entries);
        }
        Err(e) => {
            print_refusal(rt, e, set, request);
            wanted.expect_refusal(rt, e);
            wanted.expect_check(rt, set, request);
            wanted.expect_question(rt, set, request);
            report_unless(rt, is_filled(&words), "words changed");
        }
    }
    expect_short(rt, set, request, &wanted);
}

// Texts of a set, a request, a configuration and entries.
fn configuration_case(rt: &impl Print, stored: &mut Stored<'_>) {
    let (set, request) = (stored.text(), stored.text());
    let _ = print!(rt; " asked");
    let mut words = [0u64; WORDS];
    put_rows(
        &mut words,
        &mut Stored {
            rest: stored.text(),
        },
    );
    let words = &words;
    Asked {
        set,
        request,
        words,
    }
    .ask(rt, stored.text());
}

// What a jar becomes: the name of its file, the name that its manifest gives, and its package records.
#[derive(Clone, Copy)]
struct Jar<'a> {
    name: &'a [u8],
    manifest: Option<&'a [u8]>,
    packages: &'a [u8],
}

// The records of a jar, or the refusal, and what the output, which was as `before` says, holds then.
fn expect_written(
    rt: &impl Print,
    jar: Jar<'_>,
    wanted: &Wanted<'_>,
    out: &mut [u8],
    before: &[u8],
) {
    match automatic_from_jar_name(jar.name, jar.manifest, jar.packages, out) {
        Ok(n) => {
            let _ = print!(rt; " written {n}");
            report_unless(rt, wanted.number == 0, "number");
            report_unless(rt, head(out, n) == wanted.text, "output");
            report_unless(rt, tail(out, n) == tail(before, n), "output behind");
        }
        Err(e) => {
            print_refusal(rt, e, b"", b"");
            wanted.expect_refusal(rt, e);
            report_unless(rt, *out == *before, "output changed");
        }
    }
}

// Texts of a jar name, a manifest name and package records, whether the manifest name is given, whether the output has only 40
// bytes, the stored number and what goes with it.
fn jar_case(rt: &impl Print, stored: &mut Stored<'_>) {
    let (name, manifest, packages) = (stored.text(), stored.text(), stored.text());
    let manifest = if stored.byte() == 1 {
        Some(manifest)
    } else {
        None
    };
    let is_short = stored.byte() == 1;
    let (number, text) = (stored.byte(), stored.text());
    let jar = Jar {
        name,
        manifest,
        packages,
    };
    let before = [7u8; 4096];
    let mut out = before;
    let room = if is_short { 40 } else { 4096 };
    expect_written(
        rt,
        jar,
        &Wanted { number, text },
        &mut out[..room],
        &before[..room],
    );
}

// The line of the case at the front.
fn case(rt: &impl Print, stored: &mut Stored<'_>) {
    let _ = rt.write_all(stored.text());
    let _ = print!(rt; ":");
    match stored.byte() as u8 {
        b'R' => resolution_case(rt, stored),
        b'C' => configuration_case(rt, stored),
        _ => jar_case(rt, stored),
    }
    let _ = println!(rt);
}

// All cases, at most 4,096.
fn run(rt: &impl Print, cases: &[u8]) {
    let mut stored = Stored { rest: cases };
    for _ in 0..4096 {
        if stored.is_empty() {
            break;
        }
        case(rt, &mut stored);
    }
}

// The cases in this file.
fn run_file(
    rt: &(impl Files + Print + Eprint + AllocGlobal),
    file: &str,
) -> Result<(), AllocError> {
    let mut buffer = vec![in rt.alloc(); 0u8; 524288]?;
    match files::read_some(rt, file.as_bytes(), &mut buffer) {
        Ok(cases) => run(rt, cases),
        Err(e) => {
            let _ = eprintln!(rt; "answers: cannot read the file: {e}");
        }
    }
    Ok(())
}

fn main(rt: HostRuntime) -> Result<(), AllocError> {
    run_file(&rt, "cases")?;
    run_file(&rt, "more")
}

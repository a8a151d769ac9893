// Reads the class files of the file `cases`, published, made and damaged ones, and compares each answer and what was written with
// what is stored beside it. A case is a name with its length byte, a class file with its length in four bytes, the number of the
// answer (0 where records are written), its offset or length in four bytes, and the records. What cannot be printed is passed over.
#![tactic(auto)]

use cases::{Refusal, Stored, report_unless};
use class_reader::class_file::from_class_file;
use records::bytes::tail;
use records::error::ModuleError;
use std::alloc::AllocError;

// An answer as it is stored: a number, 0 where records are written, and the offset or length that goes with it.
#[derive(Clone, Copy)]
struct Answer {
    number: usize,
    at: usize,
}

impl From<Result<usize, ModuleError>> for Answer {
    fn from(written: Result<usize, ModuleError>) -> Answer {
        match written {
            Ok(at) => Answer { number: 0, at },
            Err(e) => {
                let number = e.number();
                match e {
                    ModuleError::TooLarge(at)
                    | ModuleError::OutputTooShort(at)
                    | ModuleError::DescriptorParseError(at) => Answer { number, at },
                    _ => Answer { number, at: 0 },
                }
            }
        }
    }
}

// An output of eight bytes, which no record fits, is refused with the bytes needed and left as it was.
fn expect_short(rt: &impl Print, class: &[u8], needed: usize) {
    let mut out = [7u8; 8];
    let answer = Answer::from(from_class_file(class, &mut out));
    report_unless(rt, answer.number == 4, "too short");
    report_unless(rt, answer.at == needed, "bytes needed");
    report_unless(rt, out == [7u8; 8], "changed though too short");
}

// The answer for the class file, and what differs from what is stored. Behind the records the output is as it was before.
fn check(rt: &impl Print, class: &[u8], wanted: Answer, records: &[u8], before: &[u8]) {
    let mut out = [7u8; 131072];
    let written = from_class_file(class, &mut out);
    let _ = match written {
        Ok(n) => print!(rt; " written {n}"),
        Err(e) => print!(rt; " {}", Refusal(e)),
    };
    let answer = Answer::from(written);
    report_unless(rt, answer.number == wanted.number, "number");
    report_unless(rt, answer.at == wanted.at, "offset or length");
    let mut out = Stored { rest: &out };
    report_unless(rt, out.bytes(records.len()) == records, "output");
    report_unless(rt, out.rest == tail(before, records.len()), "output");
    if !records.is_empty() {
        expect_short(rt, class, records.len());
    }
    let _ = println!(rt);
}

// The case at the front.
fn case(rt: &impl Print, stored: &mut Stored<'_>, before: &[u8]) {
    let len = stored.byte();
    let _ = rt.write_all(stored.bytes(len));
    let class = stored.text();
    let number = stored.byte();
    let at = stored.large_number();
    let records = stored.bytes(if number == 0 { at } else { 0 });
    check(rt, class, Answer { number, at }, records, before);
}

// All cases, at most 4,096.
fn run(rt: &impl Print, cases: &[u8]) {
    let before = [7u8; 131072];
    let mut stored = Stored { rest: cases };
    for _ in 0..4096 {
        if stored.is_empty() {
            break;
        }
        case(rt, &mut stored, &before);
    }
}

fn main(rt: HostRuntime) -> Result<(), AllocError> {
    let mut buffer = vec![in rt.alloc(); 0u8; 524288]?;
    match files::read_some(&rt, b"cases", &mut buffer) {
        Ok(cases) => run(&rt, cases),
        Err(e) => {
            let _ = eprintln!(rt; "classes: cannot read the file cases: {e}");
        }
    }
    Ok(())
}

// Refusals: their particulars, printed and compared with the stored ones.
use access::access::{AccessKind, check_access};
use bstr::ByteSlice;
use cases::{Refusal, Stored, report_unless};
use records::bytes::part;
use records::error::{Input, ModuleError};
use records::request::check;
use resolution::configuration::WORDS;

// What a case is to end with: the number of the refusal, 0 where there is none, and the text behind it.
#[derive(Clone, Copy)]
pub struct Wanted<'a> {
    pub number: usize,
    pub text: &'a [u8],
}

// A refusal as it is stored: its number, the input that it points into, and its particulars, 0 where it has none.
#[derive(Clone, Copy)]
struct Particulars {
    number: usize,
    input: usize,
    at: usize,
    len: usize,
    owner: usize,
    second: usize,
}

fn input_number(input: Input) -> usize {
    match input {
        Input::Set => 1,
        Input::Request => 2,
        Input::Packages => 3,
    }
}

impl From<ModuleError> for Particulars {
    fn from(e: ModuleError) -> Particulars {
        let (input, at, len, owner, second) = match e {
            ModuleError::Malformed(input, at) => (input_number(input), at, 0, 0, 0),
            ModuleError::TooLarge(at)
            | ModuleError::Repeated(at)
            | ModuleError::OutputTooShort(at) => (0, at, 0, 0, 0),
            ModuleError::ModuleNotFound(input, at, len) => (input_number(input), at, len, 0, 0),
            ModuleError::SplitPackage(at, len, owner, second) => (1, at, len, owner, second),
            _ => (0, 0, 0, 0, 0),
        };
        Particulars {
            number: e.number(),
            input,
            at,
            len,
            owner,
            second,
        }
    }
}

impl Wanted<'_> {
    fn particulars(&self) -> Particulars {
        let mut stored = Stored { rest: self.text };
        Particulars {
            number: self.number,
            input: stored.byte(),
            at: stored.large_number(),
            len: stored.number(),
            owner: stored.number(),
            second: stored.number(),
        }
    }

    // The refusal is the stored one.
    pub fn expect_refusal(&self, rt: &impl Print, e: ModuleError) {
        let given = Particulars::from(e);
        let wanted = self.particulars();
        report_unless(rt, given.number == wanted.number, "number");
        report_unless(rt, given.input == wanted.input, "input");
        report_unless(rt, given.at == wanted.at, "offset");
        report_unless(rt, given.len == wanted.len, "length");
        report_unless(rt, given.owner == wanted.owner, "owner");
        report_unless(rt, given.second == wanted.second, "second module");
    }

    // The stored refusal where that is 1 to 3, else 4 with the words needed.
    pub fn expect_needed(&self, rt: &impl Print, e: ModuleError) {
        if (1..=3).contains(&self.number) {
            return self.expect_refusal(rt, e);
        }
        let given = Particulars::from(e);
        report_unless(rt, given.number == 4, "number with too few words");
        report_unless(rt, given.at == WORDS, "words needed");
    }

    // The check ends with a refusal 1 to 3, and takes what is refused later.
    pub fn expect_check(&self, rt: &impl Print, set: &[u8], request: &[u8]) {
        match check(set, request) {
            Ok(_) => report_unless(rt, 3 < self.number, "check"),
            Err(e) => self.expect_refusal(rt, e),
        }
    }

    // So does a question, also of a module about itself.
    pub fn expect_question(&self, rt: &impl Print, set: &[u8], request: &[u8]) {
        let words = [0u64; WORDS];
        match check_access(set, request, &words, AccessKind::Access, b"a", b"a", b"") {
            Ok(_) => report_unless(rt, 3 < self.number, "question"),
            Err(e) => self.expect_refusal(rt, e),
        }
    }
}

// The refusal, and with 5 and 7 the name that it points to.
pub fn print_refusal(rt: &impl Print, e: ModuleError, set: &[u8], request: &[u8]) {
    let _ = print!(rt; " {}", Refusal(e));
    let _ = match e {
        ModuleError::ModuleNotFound(input, at, len) => {
            let named = if matches!(input, Input::Request) {
                request
            } else {
                set
            };
            print!(rt; " {}", part(named, at, len).as_bstr())
        }
        ModuleError::SplitPackage(at, len, owner, second) => {
            print!(rt; " {} {owner} {second}", part(set, at, len).as_bstr())
        }
        _ => Ok(()),
    };
}

// What the test programs share: the form in which their cases are stored, and what they print.
#![tactic(auto)]

ghost use Rattle.std.specs.Prelude.{◌≡◌, ◌+◌, ◌*◌, ◌<◌, take, drop, get_or, length, IsOk, IsTrue, ◌↔◌};
ghost use Rattle.records.specs.Bytes.{u16_at};

use records::bytes::{be16, byte, head, tail};
use records::error::{Input, ModuleError};
use std::{fmt, io};

// Stored bytes, read from the front. What is not there reads as 0, or as nothing.
#[derive(Clone, Copy)]
pub struct Stored<'a> {
    pub rest: &'a [u8],
}

impl<'a> Stored<'a> {
    pub fn is_empty(&self) -> bool
        ensures { IsTrue result ↔ (length self.now.rest.now ≡ 0) }
    {
        self.rest.is_empty()
    }

    // The next n bytes, or as many of them as there are.
    pub fn bytes(&mut self, n: usize) -> &'a [u8]
        ensures value { result.now ≡ take n self.old.rest.now }
        ensures rest { self.new.rest.now ≡ drop n self.old.rest.now }
    {
        let bytes = head(self.rest, n);
        self.rest = tail(self.rest, n);
        bytes
    }

    pub fn byte(&mut self) -> usize
        ensures value { result ≡ get_or self.old.rest.now 0 0 }
        ensures bound { result < 256 }
        ensures rest { self.new.rest.now ≡ drop 1 self.old.rest.now }
    {
        let n = byte(self.rest, 0);
        self.rest = tail(self.rest, 1);
        n
    }

    // Two bytes as a number, the high one first.
    pub fn number(&mut self) -> usize
        ensures value { result ≡ u16_at self.old.rest.now 0 }
        ensures rest { self.new.rest.now ≡ drop 2 self.old.rest.now }
    {
        let n = be16(self.rest, 0);
        self.rest = tail(self.rest, 2);
        n
    }

    // Four bytes as a number, the high one first.
    pub fn large_number(&mut self) -> usize
        ensures value { result ≡ u16_at self.old.rest.now 0 * 65536 + u16_at self.old.rest.now 2 }
        ensures bound { result < 4294967296 }
        ensures rest { self.new.rest.now ≡ drop 4 self.old.rest.now }
    {
        let n = be16(self.rest, 0) * 65536 + be16(self.rest, 2);
        self.rest = tail(self.rest, 4);
        n
    }

    // A text: its length in four bytes, and its bytes.
    pub fn text(&mut self) -> &'a [u8]
        ensures value { result.now ≡ take (u16_at self.old.rest.now 0 * 65536 + u16_at self.old.rest.now 2) (drop 4 self.old.rest.now) }
        ensures rest { self.new.rest.now ≡ drop (u16_at self.old.rest.now 0 * 65536 + u16_at self.old.rest.now 2) (drop 4 self.old.rest.now) }
    {
        let n = self.large_number();
        self.bytes(n)
    }
}

// A refusal as it is printed: its number, the input that 1 points into, and the place or the length that goes with it.
#[derive(Clone, Copy)]
pub struct Refusal(pub ModuleError);

impl fmt::Display for Refusal {
    fn fmt<W: fmt::Write>(&self, f: &mut fmt::Formatter<W>) -> fmt::Result {
        let number = self.0.number();
        match self.0 {
            ModuleError::Malformed(input, at) => {
                let name = match input {
                    Input::Set => "set",
                    Input::Request => "request",
                    Input::Packages => "packages",
                };
                write!(f, "refused {number} {name} {at}")
            }
            ModuleError::TooLarge(at)
            | ModuleError::Repeated(at)
            | ModuleError::OutputTooShort(at)
            | ModuleError::DescriptorParseError(at) => write!(f, "refused {number} {at}"),
            _ => write!(f, "refused {number}"),
        }
    }
}

// What is printed where something is not as it is to be, or why it cannot be printed.
pub fn expect(rt: &impl Print, holds: bool, what: &str) -> io::Result<()>
    ensures { IsTrue holds → IsOk result }
{
    if holds {
        return Ok(());
    }
    print!(rt; " differs: {what}")
}

// The same. What cannot be printed is passed over.
pub fn report_unless(rt: &impl Print, holds: bool, what: &str) {
    if !holds {
        let _ = print!(rt; " differs: {what}");
    }
}

#[cfg(test)]
mod tests;

// What no clause says: what is printed where something differs, and that a print that fails is told or passed over.
use crate::{expect, report_unless};
use std::cell::Cell;
use std::fmt::Display;
use std::io;
use std::io::{Cursor, Write};

// An output that takes this text alone, in one print, and counts the prints that it took and those that failed.
#[derive(Drop)]
struct Output {
    text: &'static [u8],
    taken: Cell<usize>,
    failed: Cell<usize>,
}

impl Output {
    fn of(text: &'static [u8]) -> Output {
        Output {
            text,
            taken: Cell::new(0),
            failed: Cell::new(0),
        }
    }

    fn counts(&self) -> (usize, usize) {
        (self.taken.get(), self.failed.get())
    }
}

impl Print for Output {
    fn print<D: Display + Drop>(&self, value: D) -> io::Result<()> {
        let mut to = Cursor::new([0u8; 64]);
        write!(to, "{}", value)?;
        let n = to.position().min(64) as usize;
        self.write_all(&to.into_inner()[..n])
    }

    fn println<D: Display + Drop>(&self, value: D) -> io::Result<()> {
        let mut to = Cursor::new([0u8; 64]);
        write!(to, "{}\n", value)?;
        let n = to.position().min(64) as usize;
        self.write_all(&to.into_inner()[..n])
    }

    fn write_all(&self, bytes: &[u8]) -> io::Result<()> {
        if bytes == self.text {
            self.taken.set(self.taken.get().saturating_add(1));
            Ok(())
        } else {
            self.failed.set(self.failed.get().saturating_add(1));
            Err(io::Error::from(io::ErrorKind::BrokenPipe))
        }
    }
}

#[test]
fn prints_what_differs(rt: HostRuntime) {
    let output = Output::of(b" differs: length");
    assert!(rt; expect(&output, true, "length").is_ok());
    assert_eq!(rt; output.counts(), (0, 0), "where it holds");
    assert!(rt; expect(&output, false, "length").is_ok());
    assert_eq!(rt; output.counts(), (1, 0), "where it does not");
    report_unless(&output, true, "length");
    assert_eq!(rt; output.counts(), (1, 0), "reported where it holds");
    report_unless(&output, false, "length");
    assert_eq!(rt; output.counts(), (2, 0), "reported where it does not");
}

#[test]
fn tells_a_failed_print(rt: HostRuntime) {
    let closed = Output::of(b"");
    assert!(rt; expect(&closed, true, "words").is_ok());
    assert_eq!(rt; closed.counts(), (0, 0), "where it holds");
    assert!(rt; expect(&closed, false, "words").is_err());
    report_unless(&closed, false, "words");
    assert_eq!(rt; closed.counts(), (0, 2), "each tried once");
}

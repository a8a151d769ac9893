// Files of a program's working folder and its arguments, why one cannot be read or written, and the file that records are written to.
#![tactic(auto)]

ghost use Rattle.std.specs.Prelude.{◌≡◌, ◌<◌, ◌≤◌, ◌↔◌, length, IfOk, IsOk, IsUtf8};

use arrayvec::ArrayString;
use records::bytes::head;
use records::error::ModuleError;
use std::env::FillError;
use std::fmt::Write;
use std::fs::File;
use std::io::{Cursor, Read};
use std::rt::{Env, Files};
use std::str::{Utf8Error, from_utf8};
use std::{error, fmt, fs, io};

// The system's numbers of three errors: an argument that is invalid, a name that is too long, and bytes that are no text.
const EINVAL: i32 = 22;

const ENAMETOOLONG: i32 = 36;

const EILSEQ: i32 = 84;

// An error of the system, by its number. It prints as the system's text, without the number that std puts behind it.
#[derive(Clone, Copy, PartialEq, Eq, Debug)]
pub struct SystemError(i32);

pub type Result<T> = std::result::Result<T, SystemError>;

impl fmt::Display for SystemError {
    fn fmt<W: fmt::Write>(&self, f: &mut fmt::Formatter<W>) -> fmt::Result {
        let mut text = ArrayString::<128>::new();
        write!(text, "{}", io::Error::from_raw_os_error(self.0))?;
        let text = text.as_str();
        f.write_str(
            text.rsplit_once(" (os error ")
                .map_or(text, |(reason, _)| reason),
        )
    }
}

impl error::Error for SystemError {}

// An error without a number comes from a name with a NUL in it.
impl From<io::Error> for SystemError {
    fn from(error: io::Error) -> SystemError {
        SystemError(error.raw_os_error().unwrap_or(EINVAL))
    }
}

impl From<Utf8Error> for SystemError {
    fn from(_error: Utf8Error) -> SystemError {
        SystemError(EILSEQ)
    }
}

impl From<FillError> for SystemError {
    fn from(error: FillError) -> SystemError {
        SystemError(match error {
            FillError::NotPresent => EINVAL,
            FillError::TooLong => ENAMETOOLONG,
        })
    }
}

// The path of a file's name, which is UTF-8 where std is to open it.
pub fn path(name: &[u8]) -> Result<&str>
    ensures valid { IsOk result ↔ IsUtf8 name.now }
    ensures value { IfOk result (λ path. path.now ≡ name.now) }
{
    Ok(from_utf8(name)?)
}

// Reads until the buffer is full, the file ends or a read fails; how many bytes are at the buffer's start, and that failure.
fn fill(file: &mut impl Read, buffer: &mut [u8]) -> (usize, io::Result<u64>)
    ensures { result.0 ≤ length buffer.new }
{
    let room = buffer.len();
    let mut to = Cursor::new(buffer);
    let result = io::copy(&mut file.take(room as u64), &mut to);
    (room.min(to.position() as usize), result)
}

// As much of the file as can be read and the buffer has room for.
pub fn read_some<'a>(rt: &impl Files, name: &[u8], buffer: &'a mut [u8]) -> Result<&'a [u8]>
    ensures { IfOk result (λ bytes. length bytes.now ≤ length buffer.old) }
{
    let mut file = File::open(rt, path(name)?)?;
    let (len, _) = fill(&mut file, buffer);
    Ok(&buffer[..len])
}

// The file, or as much of it as the buffer has room for.
pub fn read<'a>(rt: &impl Files, name: &[u8], buffer: &'a mut [u8]) -> Result<&'a [u8]>
    ensures { IfOk result (λ bytes. length bytes.now ≤ length buffer.old) }
{
    let mut file = File::open(rt, path(name)?)?;
    let (len, result) = fill(&mut file, buffer);
    result?;
    Ok(&buffer[..len])
}

// Writes these bytes to the file, which is made or overwritten.
pub fn write(rt: &impl Files, name: &[u8], bytes: &[u8]) -> Result<()> {
    Ok(fs::write(rt, path(name)?, bytes)?)
}

// The argument of this number. Number 0 is the program's own name.
pub fn arg<'a>(rt: &impl Env, i: usize, buffer: &'a mut [u8]) -> Result<&'a [u8]>
    ensures { IfOk result (λ bytes. length bytes.now ≤ length buffer.old) }
{
    let len = rt.arg(i, buffer)?;
    Ok(&buffer[..len])
}

// Whether the program was started with an argument of this number. Number 0 is the program's own name.
pub fn has_arg(rt: &impl Env, i: usize) -> bool {
    !matches!(rt.arg(i, &mut []), Err(FillError::NotPresent))
}

// How many arguments the program was started with, its own name aside. It asks for each of them, so a usage test asks `has_arg` for
// one or two.
pub fn arg_count(rt: &impl Env) -> usize
    ensures { result < 18446744073709551615 }
{
    (1..usize::MAX).take_while(|i| has_arg(rt, *i)).count()
}

// A refusal as it is printed: its number, behind 1 and 8 the place of the fault, and behind 4 the length needed.
#[derive(Clone, Copy)]
struct Refused(ModuleError);

impl fmt::Display for Refused {
    fn fmt<W: fmt::Write>(&self, f: &mut fmt::Formatter<W>) -> fmt::Result {
        let number = self.0.number();
        match self.0 {
            ModuleError::Malformed(_, at)
            | ModuleError::DescriptorParseError(at)
            | ModuleError::OutputTooShort(at) => write!(f, "refused {number} {at}"),
            _ => write!(f, "refused {number}"),
        }
    }
}

// Writes the records at the front of the buffer to the file, which is made or overwritten, and prints their length; or prints the
// refusal, and leaves the file alone. A line that cannot be printed is passed over.
pub fn write_records(
    rt: &(impl Files + Print),
    file: &[u8],
    written: std::result::Result<usize, ModuleError>,
    buffer: &[u8],
) -> Result<()> {
    let _ = match written {
        Ok(n) => {
            let records = head(buffer, n);
            write(rt, file, records)?;
            println!(rt; "written {}", records.len())
        }
        Err(e) => println!(rt; "{}", Refused(e)),
    };
    Ok(())
}

#[cfg(test)]
mod tests;

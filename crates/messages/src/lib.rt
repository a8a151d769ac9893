// What several programs say: of verdicts, and on standard error of refusal 5.
#![tactic(auto)]

ghost use Rattle.std.specs.Prelude.{◌≡◌};
ghost use Rattle.resolution.specs.Absent.{absent_name};

use access::access::AccessCheckResult;
use bstr::ByteSlice;
use records::error::ModuleError;
use resolution::absent::absent_name;
use std::fmt;

// A verdict as the programs print it.
#[derive(Clone, Copy)]
pub struct Verdict(pub AccessCheckResult);

impl fmt::Display for Verdict {
    fn fmt<W: fmt::Write>(&self, f: &mut fmt::Formatter<W>) -> fmt::Result {
        f.write_str(match self.0 {
            AccessCheckResult::Allowed => "Allowed",
            AccessCheckResult::NotReadable => "NotReadable",
            AccessCheckResult::NotExported => "NotExported",
            AccessCheckResult::NotOpened => "NotOpened",
        })
    }
}

// Which module is absent, on standard error, where the outcome is refusal 5; else the name is empty, and nothing is said. Hands the
// name back. A line that cannot be written is passed over.
pub fn tell_absent<'a>(
    rt: &impl Eprint,
    set: &'a [u8],
    request: &'a [u8],
    outcome: Result<(), ModuleError>,
) -> &'a [u8]
    ensures { result.now ≡ absent_name set.now request.now outcome }
{
    let name = absent_name(set, request, outcome);
    if !name.is_empty() {
        let _ = eprintln!(rt; "{} is not in the set", name.as_bstr());
    }
    name
}

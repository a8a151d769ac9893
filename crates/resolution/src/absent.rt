// The absent name of refusal 5.
ghost use Rattle.std.specs.Prelude.{◌≡◌};
ghost use Rattle.resolution.specs.Absent.{absent_name};

use records::bytes::part;
use records::error::{Input, ModuleError};

// The absent name as a part of the set or of the request, the empty part where the outcome is no refusal 5.
pub fn absent_name<'a>(
    set: &'a [u8],
    request: &'a [u8],
    outcome: Result<(), ModuleError>,
) -> &'a [u8]
    ensures { result.now ≡ absent_name set.now request.now outcome }
{
    match outcome {
        Err(e) => match e {
            ModuleError::ModuleNotFound(input, start, len) => match input {
                Input::Set => part(set, start, len),
                Input::Request => part(request, start, len),
                Input::Packages => part(set, 0, 0),
            },
            _ => part(set, 0, 0),
        },
        Ok(()) => part(set, 0, 0),
    }
}

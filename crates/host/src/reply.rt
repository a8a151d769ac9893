// What a host is told: the number is returned, and the particulars are written.
ghost use Rattle.std.specs.Prelude.{◌≡◌, [], ◌∷◌};
ghost use Rattle.records.specs.Error.{input_number, particulars_of};
ghost use Rattle.host.specs.Host.{written_reply};
ghost use Rattle.host.specs.Reply.{four, answered, refused, Told};

use records::error::{Input, ModuleError};

// Writes the four words.
fn put(particulars: &mut [u64; 4], a: usize, b: usize, c: usize, d: usize)
    ensures { particulars.new ≡ a ∷ b ∷ c ∷ d ∷ [] }
{
    *particulars = [a as u64, b as u64, c as u64, d as u64];
}

// An answer of one word.
#[tactic(auto, unfolding(crate::specs::Reply::answered, crate::specs::Reply::four))]
pub fn answer(particulars: &mut [u64; 4], a: usize) -> u64
    ensures { Told (answered (a ∷ [])) particulars.new result }
{
    put(particulars, a, 0, 0, 0);
    0
}

// An answer of two words.
#[tactic(auto, unfolding(crate::specs::Reply::answered, crate::specs::Reply::four))]
pub fn answer_two(particulars: &mut [u64; 4], a: usize, b: usize) -> u64
    ensures { Told (answered (a ∷ b ∷ [])) particulars.new result }
{
    put(particulars, a, b, 0, 0);
    0
}

// The number of an input.
#[tactic(auto, unfolding(records::specs::Error::input_number))]
fn input(i: Input) -> usize
    ensures { result ≡ input_number i }
{
    match i {
        Input::Set => 0,
        Input::Request => 1,
        Input::Packages => 2,
    }
}

// Writes the particulars of a refusal.
#[tactic(auto, unfolding(crate::specs::Reply::four, records::specs::Error::particulars_of))]
fn put_refusal(particulars: &mut [u64; 4], e: ModuleError)
    ensures { particulars.new ≡ four (particulars_of e) }
{
    match e {
        ModuleError::Malformed(i, at) => put(particulars, input(i), at, 0, 0),
        ModuleError::TooLarge(at) => put(particulars, at, 0, 0, 0),
        ModuleError::Repeated(at) => put(particulars, at, 0, 0, 0),
        ModuleError::OutputTooShort(n) => put(particulars, n, 0, 0, 0),
        ModuleError::ModuleNotFound(i, at, n) => put(particulars, input(i), at, n, 0),
        ModuleError::JavaBaseNotFound => put(particulars, 0, 0, 0, 0),
        ModuleError::SplitPackage(at, n, owner, second) => put(particulars, at, n, owner, second),
        ModuleError::DescriptorParseError(at) => put(particulars, at, 0, 0, 0),
        ModuleError::InvalidAutomaticModuleName => put(particulars, 0, 0, 0, 0),
        ModuleError::InvalidModuleName => put(particulars, 0, 0, 0, 0),
    }
}

// A refusal.
#[tactic(auto, unfolding(crate::specs::Reply::refused))]
pub fn refuse(particulars: &mut [u64; 4], e: ModuleError) -> u64
    ensures { Told (refused e) particulars.new result }
{
    put_refusal(particulars, e);
    e.number() as u64
}

// The number of an answer, as of the bytes that a reader wrote, or a refusal.
#[tactic(auto, unfolding(crate::specs::Host::written_reply))]
pub fn tell_number(particulars: &mut [u64; 4], w: Result<usize, ModuleError>) -> u64
    ensures { Told (written_reply w) particulars.new result }
{
    match w {
        Ok(n) => answer(particulars, n),
        Err(e) => refuse(particulars, e),
    }
}

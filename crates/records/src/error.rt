// The causes of a refusal, as in document 01's table.
ghost use Rattle.std.specs.Prelude.{◌≡◌};
ghost use Rattle.records.specs.Error.{number_of};

// What was read.
#[derive(Clone, Copy)]
pub enum Input {
    Set,
    Request,
    Packages,
}

// A refusal with its particulars: offsets are those of a record's mark, or of a name's first byte.
#[derive(Clone, Copy)]
pub enum ModuleError {
    // A record that is not well-formed: of which input, and where.
    Malformed(Input, usize),
    // Too long, or the 513th module or the PL of a ninth place, at this offset.
    TooLarge(usize),
    // An MO whose name was seen before in its place, or is ALL-UNNAMED.
    Repeated(usize),
    // What the output needs: bytes, or the words of a configuration.
    OutputTooShort(usize),
    // A module that is not in the set: the input that names it, the name's start and its length.
    ModuleNotFound(Input, usize, usize),
    JavaBaseNotFound,
    // A package of two resolved modules: its name's start in the set and its length, the positions of its owner and of the
    // second module.
    SplitPackage(usize, usize, usize, usize),
    // A fault of a class file, and where.
    DescriptorParseError(usize),
    InvalidAutomaticModuleName,
    InvalidModuleName,
}

impl ModuleError {
    // The number of the refusal.
    #[tactic(auto, unfolding(crate::specs::Error::number_of))]
    pub fn number(self) -> usize
        ensures { result ≡ number_of self }
    {
        match self {
            ModuleError::Malformed(_, _) => 1,
            ModuleError::TooLarge(_) => 2,
            ModuleError::Repeated(_) => 3,
            ModuleError::OutputTooShort(_) => 4,
            ModuleError::ModuleNotFound(_, _, _) => 5,
            ModuleError::JavaBaseNotFound => 6,
            ModuleError::SplitPackage(_, _, _, _) => 7,
            ModuleError::DescriptorParseError(_) => 8,
            ModuleError::InvalidAutomaticModuleName => 9,
            ModuleError::InvalidModuleName => 10,
        }
    }
}

// The refusals, each with the number by which the papers and the C interface know it.
#![tactic(auto)]

ghost use Rattle.std.specs.Prelude.{◌≡◌};
ghost use Rattle.verdicts.specs.Refusals.{number};

// Why an instruction, a question, a line, a recipe, a site file or a buffer is refused.
#[derive(Clone, Copy, Debug, PartialEq, Eq)]
pub enum Refusal {
    // of an instruction
    UnknownCode = 1,
    OutOfRange = 2,
    ActivatorUnlisted = 3,
    NotListed = 4,
    NotOwner = 5,
    AlreadyThere = 6,
    NotThere = 7,
    LastOne = 8,
    AreaInUse = 9,
    WouldLackAccess = 10,
    WouldLoseAccess = 11,
    UnsoundState = 12,
    UnreadableLine = 13,
    RecipeForm = 14,
    OwnImport = 15,
    // of a site file
    FileTooShort = 21,
    FileVersion = 22,
    FileLength = 23,
    FileCount = 24,
    FileOffset = 25,
    FileRange = 26,
    FileOrder = 27,
    FileLists = 28,
    FileLacksAccess = 29,
    // of what is written
    LabelBlock = 30,
    BufferLength = 31,
}

impl Refusal {
    // The refusal's number.
    pub fn number(self) -> u8
        ensures { result ≡ number self }
    {
        self as u8
    }
}

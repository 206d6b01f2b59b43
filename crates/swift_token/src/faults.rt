ghost use Rattle.std.specs.Prelude.{◌≡◌};

use std::alloc::{AllocError, AllocFailed};

/// What is wrong where no token stands.
#[derive(Clone, Copy, Debug, PartialEq, Eq)]
pub enum LexWhat {
    /// A character that begins no token.
    BadCharacter,

    /// An integer with a letter directly behind it.
    BadNumber,

    /// An integer above 2 ^ 63 - 1.
    WideNumber,

    /// A string whose line or file ends before its closing quote does.
    OpenString,

    /// A `\` in a string that begins none of the escapes.
    BadEscape,

    /// A comment without end.
    OpenComment,
}

/// The first lexical fault of a text.
#[derive(Clone, Copy, Debug, PartialEq, Eq)]
pub struct LexFault {
    /// The line, from 1.
    pub line: u32,

    /// The byte of the line, from 1.
    pub column: u32,
    pub what: LexWhat,
}

/// Why a text has no tokens.
#[derive(Clone, Copy, Debug, PartialEq, Eq)]
pub enum LexEnd {
    /// The text has a lexical fault.
    Fault(LexFault),

    /// Memory was wanted and not there.
    NoMemory,
}

impl From<AllocError> for LexEnd {
    ghost use Rattle.swift_token.specs.declared.faults.LexEnd.TheVariants.{NoMemory};

    ghost from_gives = { λ _ end. end ≡ NoMemory };

    fn from(_: AllocError) -> Self {
        LexEnd::NoMemory
    }
}

impl<T: Drop> From<AllocFailed<T>> for LexEnd {
    ghost use Rattle.swift_token.specs.declared.faults.LexEnd.TheVariants.{NoMemory};

    ghost from_gives = { λ _ end. end ≡ NoMemory };

    fn from(_: AllocFailed<T>) -> Self {
        LexEnd::NoMemory
    }
}

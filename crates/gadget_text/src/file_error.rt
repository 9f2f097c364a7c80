//! Why a gadget file is refused.

ghost use Rattle.std.specs.Prelude.{◌≡◌};
ghost use Rattle.gadget_text.specs.declared.file_error.FileError.TheVariants.{OutOfMemory};
ghost use Rattle.gadget_text.specs.Errors.{error_of_text};

use crate::token::{Header, TextError};
use std::alloc::{AllocError, AllocFailed};

/// What a file has too many of.
#[derive(Clone, Copy, Debug, PartialEq, Eq, Drop)]
pub enum What {
    /// Over `gadget_limits::MOST_SHARES` shares.
    Shares,
    /// Over `gadget_limits::MOST_INPUTS` inputs.
    Inputs,
    /// Over `gadget_limits::MOST_OUTPUTS` outputs.
    Outputs,
    /// Over `gadget_limits::MOST_RANDOMS` randoms.
    Randoms,
    /// Over `gadget_grammar::MOST_OPEN_PARENTHESES` parentheses are open at a place of a line.
    Nesting,
    /// Over `gadget_limits::MOST_VARIABLES` variables.
    Variables,
}

/// Why a gadget file is refused. Lines are counted from 1.
#[derive(Clone, Copy, Debug, PartialEq, Eq, Drop)]
pub enum FileError {
    /// The line has a forbidden byte where bytes count.
    NotText(u32),
    /// The line is neither an assignment nor a header at its place with as many words as it takes.
    Syntax(u32),
    /// The line is a header that came before.
    HeaderTwice(u32),
    /// The file has no line with this header.
    HeaderMissing(Header),
    /// The word of the header is no number, or a profile other than 1, or no shares.
    BadNumber(u32),
    /// A word of the header is no stem.
    BadName(u32),
    /// The line gives a name that stands for something already, or two of its names are equal.
    NameTwice(u32),
    /// A name in the line's expression stands for nothing yet.
    Unknown(u32),
    /// No line assigns this share of this output; both are counted from 0.
    OutputMissing(u8, u8),
    TooMany(What),
    /// Memory ran out.
    OutOfMemory,
}

impl From<TextError> for FileError {
    ghost from_gives = { λ error e. e ≡ error_of_text error };

    fn from(error: TextError) -> FileError {
        match error {
            TextError::NotText(line) => FileError::NotText(line),
            TextError::OutOfMemory => FileError::OutOfMemory,
        }
    }
}

impl From<AllocError> for FileError {
    ghost from_gives = { λ _ e. e ≡ OutOfMemory };

    fn from(_error: AllocError) -> FileError {
        FileError::OutOfMemory
    }
}

impl<T: Drop> From<AllocFailed<T>> for FileError {
    ghost from_gives = { λ _ e. e ≡ OutOfMemory };

    fn from(_error: AllocFailed<T>) -> FileError {
        FileError::OutOfMemory
    }
}

//! Tokens, and why a file has none.

ghost use Rattle.std.specs.Prelude.{◌≡◌, length};
ghost use Rattle.gadget_text.specs.Places.{LiesWithin, text_in};
ghost use Rattle.gadget_text.specs.declared.token.TextError.TheVariants.{OutOfMemory};

use std::alloc::{AllocError, AllocFailed};

/// Which header a line is.
#[derive(Clone, Copy, Debug, PartialEq, Eq)]
pub enum Header {
    /// `#PROFILE`
    Profile,
    /// `#SHARES`
    Shares,
    /// `#IN`
    In,
    /// `#RANDOMS`
    Randoms,
    /// `#OUT`
    Out,
}

/// What a token is.
#[derive(Clone, Copy, Debug, PartialEq, Eq)]
pub enum TokenKind {
    /// The `#` of a header line, with the word that follows.
    Head(Header),
    /// In a header line any bytes but blanks; in an assignment line letters, digits, `_` and `.`.
    Word,
    /// `=`
    Equals,
    /// `+` or `^`
    Plus,
    /// `*` or `&`
    Times,
    /// `(`
    Open,
    /// `)`
    Close,
    /// Any other byte of an assignment line.
    Other,
}

/// A token: the bytes `from..to` of the file, which stand in a line, counted from 1.
#[derive(Clone, Copy, Debug, PartialEq, Eq)]
pub struct Token {
    pub kind: TokenKind,
    pub from: u32,
    pub to: u32,
    pub line: u32,
}

/// The text of a token of a file with these bytes.
pub fn text(bytes: &[u8], token: Token) -> &[u8]
    requires { LiesWithin (length bytes.now) token }
    ensures { result.now ≡ text_in bytes.now token }
{
    &bytes[token.from as usize..token.to as usize]
}

/// Why a file has no tokens.
#[derive(Clone, Copy, Debug, PartialEq, Eq, Drop)]
pub enum TextError {
    /// This is the first line, counted from 1, with a forbidden byte where bytes count.
    NotText(u32),
    /// Memory ran out.
    OutOfMemory,
}

impl From<AllocError> for TextError {
    ghost from_gives = { λ _ e. e ≡ OutOfMemory };

    fn from(_error: AllocError) -> TextError {
        TextError::OutOfMemory
    }
}

impl<T: Drop> From<AllocFailed<T>> for TextError {
    ghost from_gives = { λ _ e. e ≡ OutOfMemory };

    fn from(_error: AllocFailed<T>) -> TextError {
        TextError::OutOfMemory
    }
}

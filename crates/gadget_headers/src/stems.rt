//! The stems that a header lists.

ghost use Rattle.std.specs.Prelude.{◌≡◌, All, IfOk, length};
ghost use Rattle.std.specs.List.{list_all};
ghost use Rattle.gadget_text.specs.Names.{is_stem};
ghost use Rattle.gadget_text.specs.Places.{LiesWithin};
ghost use Rattle.gadget_text.specs.Errors.{Gives, Is};
ghost use Rattle.gadget_headers.specs.Headers.{listed};
ghost use Rattle.gadget_headers.specs.Seen.{listed_in, texts_in};

use gadget_text::{FileError, Token, What, is_stem, text};

/// The stems that a header lists.
#[derive(Clone, Copy)]
pub struct Stems<'a> {
    /// The number of the header's line.
    pub line: u32,
    /// The places of the stems.
    pub words: &'a [Token],
}

fn are_stems(bytes: &[u8], words: &[Token]) -> bool
    requires { All (LiesWithin (length bytes.now)) words.now }
    ensures { result ≡ list_all is_stem (texts_in bytes.now words.now) }
{
    for word in words {
        if !is_stem(text(bytes, *word)) {
            return false;
        }
    }
    true
}

/// The stems of a header that lists at most so many.
pub(crate) fn listed<'a>(
    bytes: &[u8],
    line: u32,
    is_twice: bool,
    most: usize,
    things: What,
    words: &'a [Token],
) -> Result<Stems<'a>, FileError>
    requires { All (LiesWithin (length bytes.now)) words.now }
    ensures says { Gives (listed_in bytes.now) result
        (Is (listed line is_twice most things (texts_in bytes.now words.now))) }
    ensures words { IfOk result (λ stems. stems.words.now ≡ words.now) }
{
    if is_twice {
        return Err(FileError::HeaderTwice(line));
    }
    if !are_stems(bytes, words) {
        return Err(FileError::BadName(line));
    }
    if most < words.len() {
        return Err(FileError::TooMany(things));
    }
    Ok(Stems { line, words })
}

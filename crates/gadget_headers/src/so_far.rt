//! What the header lines say, one after the other.

ghost use Rattle.std.specs.Prelude.{◌≡◌, ℕ, List, All, IfOk, length};
ghost use Rattle.gadget_text.specs.declared.token.Header.TheVariants.{In, Out, Randoms};
ghost use Rattle.gadget_text.specs.declared.token.Token.{Token};
ghost use Rattle.gadget_text.specs.Errors.{Gives, Is};
ghost use Rattle.gadget_text.specs.Places.{LiesWithin};
ghost use Rattle.gadget_headers.specs.Headers.{no_headers, one_word, with_profile, with_shares};
ghost use Rattle.gadget_headers.specs.Seen.{so_far_in, texts_in, header_said, line_said, IsSoFarOf, StaysOf};

use crate::header_line::HeaderLine;
use crate::number::number_to_255;
use crate::stems::{Stems, listed};
use gadget_limits::{MOST_INPUTS, MOST_OUTPUTS, MOST_RANDOMS, MOST_SHARES};
use gadget_text::{FileError, Header, Token, What, is_number, text};

/// What the headers so far say; `None` where a header hasn't come.
#[derive(Clone, Copy)]
pub(crate) struct SoFar<'a> {
    pub has_profile: bool,
    pub shares: Option<u8>,
    pub inputs: Option<Stems<'a>>,
    pub randoms: Option<Stems<'a>>,
    pub outputs: Option<Stems<'a>>,
}

/// No header has come.
pub(crate) fn no_headers<'a>() -> SoFar<'a>
    ensures says { (bytes : List ℕ) → so_far_in bytes result ≡ no_headers }
    ensures pieces { (all : List Token) → IsSoFarOf all result }
{
    SoFar {
        has_profile: false,
        shares: None,
        inputs: None,
        randoms: None,
        outputs: None,
    }
}

// With the word of `#PROFILE`.
fn with_profile<'a>(line: u32, so_far: SoFar<'a>, word: &[u8]) -> Result<SoFar<'a>, FileError>
    ensures says { (bytes : List ℕ) →
        Gives (so_far_in bytes) result (Is (with_profile line (so_far_in bytes so_far.entry) word.now)) }
    ensures pieces { IfOk result (λ h. (words : List Token) → StaysOf words so_far.entry h) }
{
    if so_far.has_profile {
        return Err(FileError::HeaderTwice(line));
    }
    if !is_number(word) || number_to_255(word) != 1 {
        return Err(FileError::BadNumber(line));
    }
    Ok(SoFar {
        has_profile: true,
        ..so_far
    })
}

// With the word of `#SHARES`.
fn with_shares<'a>(line: u32, so_far: SoFar<'a>, word: &[u8]) -> Result<SoFar<'a>, FileError>
    ensures says { (bytes : List ℕ) →
        Gives (so_far_in bytes) result (Is (with_shares line (so_far_in bytes so_far.entry) word.now)) }
    ensures pieces { IfOk result (λ h. (words : List Token) → StaysOf words so_far.entry h) }
{
    if so_far.shares.is_some() {
        return Err(FileError::HeaderTwice(line));
    }
    let shares = number_to_255(word);
    if !is_number(word) || shares == 0 {
        return Err(FileError::BadNumber(line));
    }
    if MOST_SHARES < shares {
        return Err(FileError::TooMany(What::Shares));
    }
    Ok(SoFar {
        shares: Some(shares),
        ..so_far
    })
}

// With the words of `#IN`.
fn with_inputs<'a>(
    bytes: &[u8],
    line: u32,
    so_far: SoFar<'a>,
    words: &'a [Token],
) -> Result<SoFar<'a>, FileError>
    requires { All (LiesWithin (length bytes.now)) words.now }
    ensures says { Gives (so_far_in bytes.now) result (Is (header_said bytes.now line so_far.entry words.now In)) }
    ensures pieces { IfOk result (StaysOf words.now so_far.entry) }
{
    if words.is_empty() {
        return Err(FileError::Syntax(line));
    }
    let is_twice = so_far.inputs.is_some();
    let inputs = listed(bytes, line, is_twice, MOST_INPUTS, What::Inputs, words)?;
    Ok(SoFar {
        inputs: Some(inputs),
        ..so_far
    })
}

// With the words of `#RANDOMS`.
fn with_randoms<'a>(
    bytes: &[u8],
    line: u32,
    so_far: SoFar<'a>,
    words: &'a [Token],
) -> Result<SoFar<'a>, FileError>
    requires { All (LiesWithin (length bytes.now)) words.now }
    ensures says { Gives (so_far_in bytes.now) result (Is (header_said bytes.now line so_far.entry words.now Randoms)) }
    ensures pieces { IfOk result (StaysOf words.now so_far.entry) }
{
    let is_twice = so_far.randoms.is_some();
    let randoms = listed(bytes, line, is_twice, MOST_RANDOMS, What::Randoms, words)?;
    Ok(SoFar {
        randoms: Some(randoms),
        ..so_far
    })
}

// With the words of `#OUT`.
fn with_outputs<'a>(
    bytes: &[u8],
    line: u32,
    so_far: SoFar<'a>,
    words: &'a [Token],
) -> Result<SoFar<'a>, FileError>
    requires { All (LiesWithin (length bytes.now)) words.now }
    ensures says { Gives (so_far_in bytes.now) result (Is (header_said bytes.now line so_far.entry words.now Out)) }
    ensures pieces { IfOk result (StaysOf words.now so_far.entry) }
{
    if words.is_empty() {
        return Err(FileError::Syntax(line));
    }
    let is_twice = so_far.outputs.is_some();
    let outputs = listed(bytes, line, is_twice, MOST_OUTPUTS, What::Outputs, words)?;
    Ok(SoFar {
        outputs: Some(outputs),
        ..so_far
    })
}

// The word of a header that takes exactly one.
fn only_word<'b>(bytes: &'b [u8], line: u32, words: &[Token]) -> Result<&'b [u8], FileError>
    requires { All (LiesWithin (length bytes.now)) words.now }
    ensures { Gives (λ word. word.now) result (Is (one_word line (texts_in bytes.now words.now))) }
{
    if words.len() != 1 {
        return Err(FileError::Syntax(line));
    }
    Ok(text(bytes, words[0]))
}

/// With one more header line.
pub(crate) fn with_header<'a>(
    bytes: &[u8],
    so_far: SoFar<'a>,
    line: HeaderLine<'a>,
) -> Result<SoFar<'a>, FileError>
    requires { All (LiesWithin (length bytes.now)) line.words.now }
    ensures says { Gives (so_far_in bytes.now) result (Is (line_said bytes.now so_far.entry line.entry)) }
    ensures pieces { IfOk result (StaysOf line.entry.words.now so_far.entry) }
{
    let HeaderLine {
        line,
        header,
        words,
        ..
    } = line;
    match header {
        Header::Profile => with_profile(line, so_far, only_word(bytes, line, words)?),
        Header::Shares => with_shares(line, so_far, only_word(bytes, line, words)?),
        Header::In => with_inputs(bytes, line, so_far, words),
        Header::Randoms => with_randoms(bytes, line, so_far, words),
        Header::Out => with_outputs(bytes, line, so_far, words),
    }
}

//! All headers of a file.

ghost use Rattle.std.specs.Prelude.{◌≡◌, ℕ, List, All, length, IfOk};
ghost use Rattle.gadget_text.specs.declared.token.Token.{Token};
ghost use Rattle.gadget_text.specs.Errors.{Gives, Is};
ghost use Rattle.gadget_text.specs.Places.{LiesWithin, lines_in};
ghost use Rattle.gadget_headers.specs.Headers.{preamble_of, end_headers};
ghost use Rattle.gadget_headers.specs.Limits.{KeepsLimits};
ghost use Rattle.gadget_headers.specs.Seen.{preamble_in, so_far_in, EndsWith, IsSoFarOf, AreHeadersOf, AreHeadersWithin};

use crate::header_line::header_line;
use crate::so_far::{SoFar, no_headers, with_header};
use crate::stems::Stems;
use gadget_text::{FileError, Header, Token};

/// What the headers of a file say.
#[derive(Clone, Copy)]
pub struct Headers<'a> {
    /// Into how many shares each input and output is split.
    pub shares: u8,
    pub inputs: Stems<'a>,
    /// `None` where the file has no such line.
    pub randoms: Option<Stems<'a>>,
    pub outputs: Stems<'a>,
    /// The tokens after the headers: those of the first assignment line and of all lines after it.
    pub rest: &'a [Token],
}

// What the headers say, where they end in front of these tokens.
fn end_headers<'a>(so_far: SoFar<'a>, rest: &'a [Token]) -> Result<Headers<'a>, FileError>
    ensures says { (bytes : List ℕ) →
        Gives (preamble_in bytes) result (Is (end_headers (so_far_in bytes so_far.entry) (lines_in bytes rest.now))) }
    ensures pieces { IfOk result (λ h. (all : List Token) →
        IsSoFarOf all so_far.entry → EndsWith all rest.now → AreHeadersOf all h) }
{
    Ok(Headers {
        shares: so_far
            .shares
            .ok_or(FileError::HeaderMissing(Header::Shares))?,
        inputs: so_far.inputs.ok_or(FileError::HeaderMissing(Header::In))?,
        randoms: so_far.randoms,
        outputs: so_far.outputs.ok_or(FileError::HeaderMissing(Header::Out))?,
        rest,
    })
}

/// What the headers of a file with these tokens say; or the first offence of a header line, or the first header that is
/// missing where the headers end. Time is linear in the length of the header lines and of the line after them.
pub fn read_headers<'a>(bytes: &[u8], tokens: &'a [Token]) -> Result<Headers<'a>, FileError>
    requires within { All (LiesWithin (length bytes.now)) tokens.now }
    ensures says { Gives (preamble_in bytes.now) result (Is (preamble_of (lines_in bytes.now tokens.now))) }
    ensures limits { IfOk result (λ h. KeepsLimits (preamble_in bytes.now h)) }
    ensures pieces { IfOk result (AreHeadersOf tokens.now) }
    ensures within { IfOk result (AreHeadersWithin (length bytes.now)) }
{
    let mut so_far = no_headers();
    let mut rest = tokens;
    loop {
        let Some(line) = header_line(rest) else {
            return end_headers(so_far, rest);
        };
        so_far = with_header(bytes, so_far, line)?;
        rest = line.rest;
    }
}

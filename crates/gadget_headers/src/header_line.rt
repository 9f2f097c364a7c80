//! A header line in its parts.

ghost use Rattle.std.specs.Prelude.{◌≡◌, ◌<◌, ◌++◌, ◌∷◌, IfNone, IfSome, length, drop};
ghost use Rattle.gadget_text.specs.declared.token.Token.{Token};
ghost use Rattle.gadget_headers.specs.Seen.{EndHeaders, GoesOn};

use gadget_text::{Header, Token, TokenKind, first_line};

/// A header line, and the tokens of the lines after it.
#[derive(Clone, Copy)]
pub(crate) struct HeaderLine<'a> {
    pub line: u32,
    pub header: Header,
    pub words: &'a [Token],
    pub rest: &'a [Token],
}

// The tokens after the first.
fn behind_first(tokens: &[Token]) -> &[Token]
    requires { 0 < length tokens.now }
    ensures { result.now ≡ drop 1 tokens.now }
{
    &tokens[1..]
}

/// The first line, where it is a header line.
pub(crate) fn header_line(tokens: &[Token]) -> Option<HeaderLine<'_>>
    ensures ends { IfNone result (EndHeaders tokens.now) }
    ensures goes_on { IfSome result (GoesOn tokens.now) }
    ensures parts { IfSome result (λ l. (head : Token) × (head ∷ (l.words.now ++ l.rest.now) ≡ tokens.now)) }
{
    let line = first_line(tokens)?;
    let TokenKind::Head(header) = line.tokens[0].kind else {
        return None;
    };
    Some(HeaderLine {
        line: line.line,
        header,
        words: behind_first(line.tokens),
        rest: line.rest,
    })
}

//! How deep parentheses are nested.

ghost use Rattle.std.specs.Prelude.{◌≡◌, ℕ, List};
ghost use Rattle.gadget_grammar.specs.Nesting.{is_too_deep};
ghost use Rattle.gadget_grammar.specs.Seen.{symbols_in};

use gadget_text::{Token, TokenKind};

/// In each prefix of a line at most this many more parentheses are opened than closed.
pub const MOST_OPEN_PARENTHESES: u64 = 64;

/// Whether in some prefix more parentheses are open than may be.
pub(crate) fn is_too_deep(tokens: &[Token]) -> bool
    ensures { (bytes : List ℕ) → result ≡ is_too_deep 0 0 (symbols_in bytes tokens.now) }
{
    let mut opened = 0u64;
    let mut closed = 0u64;
    for token in tokens {
        match token.kind {
            TokenKind::Open => {
                opened += 1;
                if MOST_OPEN_PARENTHESES + closed < opened {
                    return true;
                }
            }
            TokenKind::Close => closed += 1,
            _ => {}
        }
    }
    false
}

//! The bytes of a gadget file by what they stand for.

ghost use Rattle.std.specs.Prelude.{◌≡◌};
ghost use Rattle.std.specs.List.{list_all};
ghost use Rattle.gadget_text.specs.Bytes.{is_blank, is_name_byte, is_allowed, is_in_word, sign_kind};

use crate::token::TokenKind;
use crate::words::Words;

/// Whether a byte is a space or a tab.
pub(crate) fn is_blank(b: u8) -> bool
    ensures { result ≡ is_blank b }
{
    b == b' ' || b == b'\t'
}

fn is_name_byte(b: u8) -> bool
    ensures { result ≡ is_name_byte b }
{
    b.is_ascii_alphanumeric() || b == b'_' || b == b'.'
}

/// Whether a byte stands in a word.
pub(crate) fn is_in_word(words: Words, b: u8) -> bool
    ensures { result ≡ is_in_word words b }
{
    match words {
        Words::Solid => !is_blank(b),
        Words::Named => is_name_byte(b),
    }
}

/// What a byte is that stands in no word and is no blank.
pub(crate) fn sign_kind(b: u8) -> TokenKind
    ensures { result ≡ sign_kind b }
{
    match b {
        b'=' => TokenKind::Equals,
        b'+' | b'^' => TokenKind::Plus,
        b'*' | b'&' => TokenKind::Times,
        b'(' => TokenKind::Open,
        b')' => TokenKind::Close,
        _ => TokenKind::Other,
    }
}

fn is_allowed(b: u8) -> bool
    ensures { result ≡ is_allowed b }
{
    b == b'\t' || (b' ' <= b && b <= b'~')
}

/// Whether no byte is forbidden.
pub(crate) fn are_allowed(bytes: &[u8]) -> bool
    ensures { result ≡ list_all is_allowed bytes.now }
{
    bytes.iter().all(|b| is_allowed(*b))
}

//! The headers by their words.

ghost use Rattle.std.specs.Prelude.{◌≡◌};
ghost use Rattle.gadget_text.specs.Lines.{header_word, ends_header, has_header, header_behind};

use crate::byte::is_blank;
use crate::token::Header;

/// The word of a header.
pub(crate) fn header_word(header: Header) -> &'static [u8]
    ensures { result.now ≡ header_word header }
{
    match header {
        Header::Profile => b"PROFILE",
        Header::Shares => b"SHARES",
        Header::In => b"IN",
        Header::Randoms => b"RANDOMS",
        Header::Out => b"OUT",
    }
}

fn ends_header(rest: &[u8]) -> bool
    ensures { result ≡ ends_header rest.now }
{
    if rest.is_empty() {
        return true;
    }
    is_blank(rest[0]) || rest[0] == b'#'
}

#[tactic(auto, unfolding(crate::specs::Lines::has_header))]
fn has_header(header: Header, bytes: &[u8]) -> bool
    ensures { result ≡ has_header header bytes.now }
{
    let word = header_word(header);
    if bytes.starts_with(word) {
        ends_header(&bytes[word.len()..])
    } else {
        false
    }
}

/// Which header stands directly after `#`.
#[tactic(auto, unfolding(crate::specs::Lines::header_behind))]
pub(crate) fn header_behind(bytes: &[u8]) -> Option<Header>
    ensures { result ≡ header_behind bytes.now }
{
    if has_header(Header::Profile, bytes) {
        Some(Header::Profile)
    } else if has_header(Header::Shares, bytes) {
        Some(Header::Shares)
    } else if has_header(Header::In, bytes) {
        Some(Header::In)
    } else if has_header(Header::Randoms, bytes) {
        Some(Header::Randoms)
    } else if has_header(Header::Out, bytes) {
        Some(Header::Out)
    } else {
        None
    }
}

//! The four kinds of lines.

use crate::token::Header;

/// The kind of a line.
#[derive(Clone, Copy)]
pub(crate) enum LineKind {
    Blank,
    Comment,
    HeaderLine(Header),
    Assignment,
}

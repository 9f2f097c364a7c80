//! The tokens of a gadget file: its lines, which of them are headers, comments or assignments, and
//! the words and signs that each has, with their places.
#![tactic(auto)]

mod byte;
mod file;
mod file_error;
mod header;
mod laws;
mod line;
mod line_kind;
mod line_tokens;
mod name;
mod token;
mod words;

pub use file::{MOST_FILE_BYTES, tokens};
pub use file_error::{FileError, What};
pub use laws::{lines_law, name_law, segments_law, slices_law, spans_law, words_law};
pub use line_tokens::{LineTokens, first_line};
pub use name::{is_name, is_number, is_stem};
pub use token::{Header, TextError, Token, TokenKind, text};

//! The header lines of a gadget file.
#![tactic(auto)]

mod header_line;
mod headers;
mod number;
mod so_far;
mod stems;

pub use headers::{Headers, read_headers};
pub use stems::Stems;

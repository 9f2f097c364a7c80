//! Gadgets, and their files: a reader that finds the flat gadget or the first offence, and the canonical text.
#![tactic(auto)]

mod file;
mod gadget;
mod header_vars;
mod inner_names;
mod laws;
mod line;
mod making;
mod name;
mod name_list;
mod name_order;
mod operations;
mod outputs;
mod print;
mod start;
mod var;
mod variables;

pub use file::read_gadget;
pub use gadget::{Gadget, one_output_law};
pub use gadget_text::{FileError, What};
pub use laws::{canonical_law, reading_law, value_law, wires_law};
pub use name::Name;
pub use print::print_gadget;
pub use var::{Var, VarKind};

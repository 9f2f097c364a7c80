//! The assignment lines of a gadget file: their expressions in post-order.
#![tactic(auto)]

mod laws;
mod level;
mod line;
mod nesting;
mod reader;
mod step;

pub use laws::{one_tree_law, value_law};
pub use line::assignment;
pub use nesting::MOST_OPEN_PARENTHESES;
pub use step::{Assignment, Step};

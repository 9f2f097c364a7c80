//! Tallies: tables of how often the tuples of a report have each size, or each item.
#![tactic(auto)]

mod by_item;
mod by_size;
mod raising;
mod tally;

pub use by_item::ByItem;
pub use by_size::BySize;
pub use raising::raise;
pub use tally::{Cell, Label, Tally, TallyKind};

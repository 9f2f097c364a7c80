//! Tables of gadgets: each variable as a sum of randoms and of products of input shares.
#![tactic(auto)]

mod class_check;
mod item;
mod leaking_wires;
mod polynomials;
mod products;
mod table;
mod table_rows;
mod terms;
mod use_counts;
mod which;
mod wire_error;

pub use item::{Item, ItemKind, weighted_item};
pub use leaking_wires::wire_items;
pub use mask_terms::Wires;
pub use table::WireTable;
pub use which::Which;
pub use wire_error::WireError;

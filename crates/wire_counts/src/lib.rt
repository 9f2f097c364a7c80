//! How many sets of wires fail, of each size.
#![tactic(auto)]

mod binomials;
mod counting;
mod exact_sets;
mod laws;
mod numbers;

pub use counting::coefficients;
pub use laws::{coefficient_law, wire_sets_law};

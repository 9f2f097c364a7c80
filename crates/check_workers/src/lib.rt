//! The minimal failing tuples of a query, found by several workers over one store.
#![tactic(auto)]

mod gate;
mod one;
mod runs;
mod serve;
mod workers;

pub use gate::{Gate, OpenGate};
pub use one::{Work, work_one};
pub use workers::minimal;

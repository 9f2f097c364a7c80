//! Lists of tuples of which none is a subset of another.
#![tactic(auto)]

mod antichain;
mod codes;
mod marks;
mod merging;

pub use antichain::{Added, Antichain};

//! The demonstration gadgets, made as texts from a number of shares.
#![tactic(auto)]

mod maker;
mod name;

pub use maker::{LEAST_DEMO_SHARES, MOST_DEMO_SHARES, isw, refresh};

//! What a query is, and the shared store of its failing tuples as plain data: its states, its steps and what always
//! holds of it.
#![tactic(auto)]

mod conditions;
mod effects;
mod inserting;
mod kind;
mod laws;
mod machine;
mod query;
mod replaying;
mod rows;
mod state;
mod taking;

pub use kind::{At, Kind};
pub use laws::{
    absent_law, full_law, lists_law, made_law, opening_law, quiet_law, run_law, seen_law, sets_law,
    step_law,
};
pub use query::{Query, Question};
pub use replaying::{CoreError, replay};
pub use rows::{Numbers, Pairs, Ranges};
pub use state::{State, View, Views};

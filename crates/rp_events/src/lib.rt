//! Random probing: which tuples of leaking wires fail for an event.
//!
//! The events are after Belaïd, Coron, Prouff, Rivain and Taleb, CRYPTO 2020. Which wires leak, which events are
//! counted and how the simulator chooses are this project's own.
#![tactic(auto)]

mod choices;
mod event;
mod exceeds;
mod index_sets;
mod laws;
mod listing;
mod names;
mod output_sets;
mod output_shares;
mod query;
mod refusals;
mod rp;
mod selections;
mod whiches;

pub use event::Event;
pub use laws::failing_is_inherited_law;
pub use listing::events;
pub use query::EventQuery;
pub use rp::{Rp, RpError};

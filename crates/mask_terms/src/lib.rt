//! The terms of a command line: tasks, options, the kinds of wires, and what may be wrong with the words.
#![tactic(auto)]

mod opt;
mod task;
mod usage_kind;
mod wires;

pub use opt::Opt;
pub use task::Task;
pub use usage_kind::UsageKind;
pub use wires::Wires;

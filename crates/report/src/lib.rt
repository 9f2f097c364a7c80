//! Reports, and how a check ends.
#![tactic(auto)]

mod builder;
mod line;
mod status;
mod texts;

pub use builder::Report;
pub use line::Line;
pub use mask_terms::{Opt, Task, UsageKind, Wires};
pub use status::{NotFor, Status};
pub use texts::{exit_status, status_text};

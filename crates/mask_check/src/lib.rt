//! The check of a gadget file: from words and bytes to a report and a status.
#![tactic(auto)]

mod answer;
mod asked;
mod demonstration;
mod event_answers;
mod greatest;
mod leaking_answer;
mod notion_answer;
mod refusals;
mod run;
mod tallying;

pub use check_workers::{Gate, OpenGate};
pub use report::{Line, NotFor, Opt, Status, Task, UsageKind, exit_status, status_text};
pub use run::{check, no_fault_law};
pub use tallies::{Cell, Label, Tally, TallyKind};

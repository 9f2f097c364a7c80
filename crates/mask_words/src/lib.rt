//! The words of a command line, and the settings that they give.
//!
//! A command line is the program's name, a task, its argument, and options that may stand anywhere. `clap` reads it.
#![tactic(auto)]

mod answer;
mod command;
mod given;
mod names;
mod number;
mod options;
mod read_settings;

pub use answer::{Settings, WordsError};
pub use read_settings::settings;

//! What is wrong with the words of a command line.

use crate::opt::Opt;

/// Which part of a command line can't be taken.
#[derive(Clone, Copy, Debug, PartialEq, Eq, Drop)]
pub enum UsageKind {
    /// The words are no task and argument with options.
    Words,
    /// The first word that belongs to no option names no task.
    Task,
    /// The task's argument is no number in its range.
    Argument,
    /// The value of this option is none that it takes.
    Value(Opt),
}

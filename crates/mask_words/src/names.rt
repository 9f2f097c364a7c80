//! The names by which clap knows the parts of a command line.

pub(crate) const TASK: &str = "TASK";

pub(crate) const ARGUMENT: &str = "ARG";

pub(crate) const SIZE: &str = "size";

pub(crate) const WORKERS: &str = "workers";

pub(crate) const BLOCK: &str = "block";

pub(crate) const BUDGET: &str = "budget";

pub(crate) const WORDS: &str = "words";

pub(crate) const WIRES: &str = "wires";

pub(crate) const TALLIES: &str = "tallies";

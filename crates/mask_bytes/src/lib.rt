//! Bytes in and out of the verifier: where they come from, where they go, and whole reads and
//! writes.
//!
//! A `Source` and a `Sink` count their faults, so that a caller can tell a failure that an object
//! had from one that code above made up, or kept silent of. Objects in memory tell their bytes, and
//! contracts say what became of these; objects over std's readers and writers tell none, and pass
//! on what std's contracts tell.
#![tactic(auto)]

mod error;
mod mem_sink;
mod mem_source;
mod sink;
mod source;
mod standard;
mod sure_source;
#[cfg(test)]
mod tests;
mod whole;

pub use error::{Failed, OutOfMemory, ReadError};
pub use mem_sink::MemSink;
pub use mem_source::MemSource;
pub use sink::Sink;
pub use source::Source;
pub use standard::{StdSink, StdSource};
pub use sure_source::SureSource;
pub use whole::{read_whole, write_whole};

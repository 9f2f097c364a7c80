//! Probing notions: which sets of probes fail.
#![tactic(auto)]

mod grants;
mod items;
mod notion;
mod query;

pub use notion::{Notion, NotionError};
pub use query::NotionQuery;

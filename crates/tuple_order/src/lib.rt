//! Tuples as the code has them: the steps from each to the next, their subsets, and how many there are.
#![tactic(auto)]

mod counts;
mod encoding;
mod ranks;
mod step_count;
mod steps;
mod tuples;

pub use counts::count;
pub use encoding::{code_law, lowest_code, size_in};
pub use ranks::{Range, rank, unrank};
pub use step_count::Steps;
pub use tuples::{MOST_ITEMS, MOST_SIZE, Tuple, is_subset, next, subset};

//! Linear algebra over GF(2): which combinations of up to 64 rows cancel.
#![tactic(auto)]

mod elimination;
mod kernels;
mod pivots;
mod row_stack;

pub use elimination::kernel;
pub use kernels::Kernel;
pub use row_stack::RowStack;

/// How many rows are combined at most: a mask has a bit for each.
pub const MOST_ROWS: usize = 64;

/// How many prefixes so many rows have, with the empty one.
pub const MOST_PREFIXES: usize = MOST_ROWS + 1;

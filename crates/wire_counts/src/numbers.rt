//! Rows of numbers of sets, one number for each size.

use tuple_order::MOST_SIZE;

/// A set that is counted has at most so many wires.
pub const MOST_WIRES: usize = MOST_SIZE as usize;

/// How many sizes such sets have, from 0 on.
pub const SIZES: usize = MOST_WIRES + 1;

/// At each place a number of sets, whose size rises by one from place to place. A row takes no memory that a thread
/// could lack.
pub type Numbers = [u128; SIZES];

//! The rank of a tuple, the tuple with a rank, and ranges of ranks.

ghost use Rattle.std.specs.Prelude.{◌≡◌, ℕ, ◌+◌, ◌*◌, ◌-◌, ◌<◌, ◌≤◌, min, Some, length, slice_get};
ghost use Rattle.tuple_model.specs.Limits.{most_items, most_size};
ghost use Rattle.tuple_model.specs.Tuples.{IsTuple, HasRank, rising, tuples};

use crate::counts::{count, count_of_fewer, count_of_size};
use crate::tuples::Tuple;

/// The ranks from `from` to before `to`, of which there is at least one.
#[derive(Clone, Copy, Debug, PartialEq, Eq, Drop)]
pub struct Range {
    pub from: u64,
    pub to: u64,
    ghost rises: { from < to },
}

impl Range {
    /// The ranks of the block with this number, of `block` ranks each, of which the last may have fewer.
    pub fn of_block(number: u64, block: u64, ranks: u64) -> Range
        requires some { 0 < block }
        requires begins { number * block < ranks }
        ensures from { result.from ≡ number * block }
        ensures to { result.to ≡ number * block + min block (ranks - number * block) }
    {
        let from = number * block;
        Range {
            from,
            to: from + block.min(ranks - from),
        }
    }
}

/// The tuple with a rank, of those of at most `size` of the items numbered below `items`. It undoes `rank`, since a
/// tuple has one rank (`tuple_model::rank_law`).
pub fn unrank(items: u16, size: u8, rank: u64) -> Tuple
    requires items_at_most { items ≤ most_items }
    requires size_at_most { size ≤ most_size }
    requires rank { rank < length (tuples items size) }
    ensures rank { HasRank items size result rank }
    ensures tuple { IsTuple items size result }
{
    let of_size = size_at(items, size, rank);
    tuple_at(items, of_size, rank - count_of_fewer(items, of_size))
}

/// The size of the tuple with a rank: the least for which there are more tuples of at most so many items.
fn size_at(items: u16, size: u8, rank: u64) -> u8
    requires items_at_most { items ≤ most_items }
    requires size_at_most { size ≤ most_size }
    requires rank { rank < length (tuples items size) }
    ensures at_most { result ≤ size }
    ensures reached { rank < length (tuples items result) }
    ensures least { (smaller : ℕ) → smaller < result → length (tuples items smaller) ≤ rank }
{
    for smaller in 0..size {
        if rank < count(items, smaller) {
            return smaller;
        }
    }
    size
}

/// The tuple at a place among those of exactly `size` items.
fn tuple_at(items: u16, size: u8, place: u64) -> Tuple
    requires items_at_most { items ≤ most_items }
    requires size_at_most { size ≤ most_size }
    requires place { place < length (rising size items 0) }
    ensures { slice_get (rising size items 0) place ≡ Some result }
{
    let mut t = Tuple::empty();
    let mut lacking = size;
    let mut rest = place;
    for item in 0..items {
        if lacking == 0 {
            return t;
        }
        // Of the tuples that go on from here, those with the item come first.
        let with_item = count_of_size(items - 1 - item, lacking - 1);
        if rest < with_item {
            t.push(item);
            lacking -= 1;
        } else {
            rest -= with_item;
        }
    }
    t
}

/// The rank of a tuple among those of at most `size` of the items numbered below `items`: how many come before it.
pub fn rank(items: u16, size: u8, t: &Tuple) -> u64
    requires items_at_most { items ≤ most_items }
    requires size_at_most { size ≤ most_size }
    requires fits { IsTuple items size t.now }
    ensures rank { HasRank items size t.now result }
    ensures below { result < length (tuples items size) }
{
    let chosen = t.items();
    let of_size = chosen.len() as u8;
    count_of_fewer(items, of_size) + place_of(items, chosen)
}

/// The place of a tuple among those of its size.
fn place_of(items: u16, t: &[u16]) -> u64
    requires items_at_most { items ≤ most_items }
    requires fits { IsTuple items most_size t.now }
    ensures { slice_get (rising (length t.now) items 0) result ≡ Some t.now }
{
    let mut passed = 0;
    let mut before = 0;
    for item in 0..items {
        if passed == t.len() {
            return before;
        }
        if t[passed] == item {
            passed += 1;
        } else {
            before += count_of_size(items - 1 - item, (t.len() - passed - 1) as u8);
        }
    }
    before
}

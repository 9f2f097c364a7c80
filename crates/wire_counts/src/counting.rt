//! The coefficients, by the tuples of the wires' items.

ghost use Rattle.std.specs.Prelude.{◌≡◌, ℕ, ◌+◌, ◌*◌, ◌-◌, ◌<◌, ◌≤◌, ◌^◌, min, All, IfOk, length, map, slice_index};
ghost use Rattle.tuple_model.specs.Limits.{most_items, most_size};
ghost use Rattle.tuple_model.specs.Tuples.{IsTuple, tuples};
ghost use Rattle.tuple_model.specs.Antichains.{Covers};
ghost use Rattle.wire_table.specs.CodeItems.{item_of};
ghost use Rattle.wire_counts.specs.Coefficients.{AreCoefficients, IsCoefficient, weights_of};
ghost use Rattle.wire_counts.specs.Limits.{most_weight};
ghost use Rattle.wire_counts.specs.Ways.{AddsSets, AreAdded, AreCounted, IsWithinLimits, sets_with};

use crate::binomials::{Binomials, binomials_of};
use crate::exact_sets::exact_sets;
use crate::numbers::{Numbers, SIZES};
use antichain_list::Antichain;
use mask_bytes::OutOfMemory;
use rayon::prelude::*;
use std::alloc::Global;
use std::thread::Threads;
use tuple_order::{Range, Tuple, count, next, unrank};
use wire_table::Item;

// How many ranks a block has.
const BLOCK: u64 = 65_536;

/// For each number of wires up to `size`, how many sets of so many wires have items that the list covers. The tuples
/// are counted in threads, as many as there are processors and as far as threads can be started. For an empty list,
/// which covers none, no tuple is looked at.
pub fn coefficients<R: Threads + Sync>(
    rt: &R,
    alloc: Global,
    items: &[Item],
    list: &Antichain,
    size: u8,
) -> Result<Vec<u128>, OutOfMemory>
    requires items_at_most { length items.now ≤ most_items }
    requires weights_at_most { All (λ weight. weight ≤ most_weight) (weights_of (map item_of items.now)) }
    requires size_at_most { size ≤ most_size }
    ensures { IfOk result
        (λ numbers. AreCoefficients (Covers list.now) (weights_of (map item_of items.now)) size numbers.items) }
{
    if list.is_empty() {
        return Ok(vec![in alloc; 0; usize::from(size) + 1]?);
    }
    let binomials = binomials_of(alloc, items)?;
    let numbers = count_sets(rt, &binomials, list, size, BLOCK);
    Ok(numbers[..usize::from(size) + 1].to_vec(alloc)?)
}

// Adds up the sets of wires whose items the list covers, by blocks of so many ranks. A block is counted by itself, and
// one block alone by the caller.
fn count_sets<R: Threads + Sync>(
    rt: &R,
    binomials: &[Binomials],
    list: &Antichain,
    size: u8,
    block: u64,
) -> Numbers
    requires limits { IsWithinLimits binomials.now size }
    requires block { 0 < block }
    ensures { (i : ℕ) → i ≤ size → IsCoefficient (Covers list.now) binomials.now i (slice_index result i) }
{
    let ranks = count(binomials.len() as u16, size);
    let blocks = ranks.div_ceil(block);
    (0..blocks)
        .into_par_iter()
        .with_min_len(1)
        .map(
            |number: u64| -> Numbers
                requires { IsWithinLimits binomials.now size × (0 < block) × (number * block < ranks)
                    × (ranks ≡ length (tuples (length binomials.now) size)) }
                ensures { AreCounted (Covers list.entry.now) binomials.entry.now size (number * block)
                    (number * block + min block (ranks - number * block)) result }
            { count_range(binomials, list, size, Range::of_block(number, block, ranks)) },
        )
        .reduce(
            rt,
            || -> Numbers
                ensures { (i : ℕ) → slice_index result i ≡ 0 }
            { [0; SIZES] },
            |left: Numbers, right: Numbers| -> Numbers
                ensures { AreAdded left right result }
            { added(left, right) },
        )
}

// The sets of wires whose items the list covers, for tuples with these ranks.
fn count_range(binomials: &[Binomials], list: &Antichain, size: u8, range: Range) -> Numbers
    requires limits { IsWithinLimits binomials.now size }
    requires ranks { range.to ≤ length (tuples (length binomials.now) size) }
    ensures { AreCounted (Covers list.now) binomials.now size range.from range.to result }
{
    let items = binomials.len() as u16;
    let mut numbers = [0; SIZES];
    let mut t = unrank(items, size, range.from);
    for _rank in range.from..range.to {
        if list.covers(&t).is_some() {
            add_sets(binomials, &t, size, &mut numbers);
        }
        let _more = next(items, size, &mut t);
    }
    numbers
}

// The sums place by place. They are less than the number of all sets of so many wires, and so none of them wraps.
fn added(left: Numbers, right: Numbers) -> Numbers
    ensures { AreAdded left right result }
{
    let mut sums = [0; SIZES];
    for place in 0..SIZES {
        sums[place] = left[place].wrapping_add(right[place]);
    }
    sums
}

// Adds the sets of up to `size` wires with exactly the tuple's items to the numbers of sets of their sizes.
fn add_sets(binomials: &[Binomials], t: &Tuple, size: u8, numbers: &mut Numbers)
    requires limits { IsWithinLimits binomials.now size }
    requires tuple { IsTuple (length binomials.now) most_size t.now }
    requires short { length t.now ≤ size }
    requires fits { (i : ℕ) → i ≤ size → slice_index numbers.old i + sets_with binomials.now t.now i < 2 ^ 128 }
    ensures { AddsSets binomials.now size t.now numbers.old numbers.new }
{
    let smallest = t.items().len();
    let sets = exact_sets(binomials, t, usize::from(size) - smallest);
    for place in smallest..usize::from(size) + 1 {
        numbers[place] += sets[place - smallest];
    }
}

#[cfg(test)]
mod tests;

//! Tuples of at most 6 items, held in place.

ghost use Rattle.std.specs.Prelude.{◌≡◌, ◌↔◌, ℕ, zero, suc, ◌+◌, ◌^◌, ◌<◌, ◌≤◌, false, List, [], ◌∷◌, ◌++◌, length, IsTrue, IfSome, IfNone};
ghost use Rattle.tuple_model.specs.Limits.{most_items, most_size};
ghost use Rattle.tuple_model.specs.Tuples.{IsTuple, IsSubset, HasRank, tuples, subset as subset_of};

use crate::steps::{number_from, raise};
use std::marker::Model;

/// A query has at most so many items, numbered from 0.
pub const MOST_ITEMS: u16 = 511;

/// A tuple has at most so many items.
pub const MOST_SIZE: u8 = 6;

/// A strictly rising list of at most 6 item numbers from 0 to 510.
#[derive(Clone, Copy, Drop)]
pub struct Tuple {
    items: [u16; 6],
    size: u8,
}

impl Model for Tuple {
    ghost use Rattle.std.specs.Prelude.{ℕ, ◌-◌, List, length, ◌++◌, take, replicate};
    ghost use Rattle.tuple_model.specs.Limits.{most_size};
    ghost use Rattle.tuple_order.specs.Held.{IsHeld, length-held, places-held};

    ghost Value = { List ℕ };

    ghost view = { λ t. take t.size t.items };

    ghost invariant = { λ t. IsHeld t.items t.size };

    ghost inverse = { λ t. record { items = t ++ replicate (most_size - length t) 0; size = length t } };

    ghost inverse_ok = { λ t h i. record {
      items = places-held t.items t.size h i;
      size = length-held t.items t.size h i;
    } };
}

impl Tuple {
    /// The tuple with no items.
    pub fn empty() -> Self
        ensures { result ≡ [] }
    {
        Tuple {
            items: [0; 6],
            size: 0,
        }
    }

    /// The tuple of these items, where they rise strictly and are few and small enough.
    pub fn from_items(items: &[u16]) -> Option<Tuple>
        ensures items { IfSome result (λ t. t ≡ items.now) }
        ensures tuple { IfSome result (IsTuple most_items most_size) }
        ensures none { IfNone result (IsTuple most_items most_size items.now → ⊥) }
    {
        if items.len() > usize::from(MOST_SIZE) {
            return None;
        }
        let mut t = Tuple::empty();
        let mut low = 0;
        for item in items {
            if *item < low || *item >= MOST_ITEMS {
                return None;
            }
            t.push(*item);
            low = *item + 1;
        }
        Some(t)
    }

    /// The items, in order.
    pub fn items(&self) -> &[u16]
        ensures items { result.now ≡ self.now }
        ensures tuple { IsTuple most_items most_size self.now }
    {
        &self.items[..usize::from(self.size)]
    }

    /// Adds an item above all that are there.
    pub(crate) fn push(&mut self, item: u16)
        requires { IsTuple most_items most_size (self.old ++ item ∷ []) }
        ensures { self.new ≡ self.old ++ item ∷ [] }
    {
        self.items[usize::from(self.size)] = item;
        self.size += 1;
    }
}

/// Goes on to the next of the tuples of at most `size` of the items numbered below `items`, by size
/// and then lexicographically. At the last one it answers false.
pub fn next(items: u16, size: u8, t: &mut Tuple) -> bool
    requires items_at_most { items ≤ most_items }
    requires size_at_most { size ≤ most_size }
    requires fits { IsTuple items size t.old }
    ensures next { IsTrue result → (rank : ℕ) → HasRank items size t.old rank → HasRank items size t.new (suc rank) }
    ensures last { result ≡ false → (rank : ℕ) → HasRank items size t.old rank → length (tuples items size) ≡ suc rank }
    ensures stays { result ≡ false → t.new ≡ t.old }
    ensures tuple { IsTuple items size t.new }
{
    let held = usize::from(t.size);
    if raise(items, &mut t.items[..held]) {
        return true;
    }
    if t.size >= size || u16::from(t.size) >= items {
        return false;
    }
    t.size += 1;
    number_from(0, &mut t.items[..held + 1]);
    true
}

/// The subset numbered `k`: it has the item at place j exactly where bit j of `k` is set.
pub fn subset(k: u8, t: &Tuple) -> Tuple
    requires { k < 2 ^ length t.now }
    ensures { result ≡ subset_of k t.now }
{
    let mut kept = Tuple::empty();
    let mut bits = k;
    for item in t.items() {
        if bits % 2 == 1 {
            kept.push(*item);
        }
        bits /= 2;
    }
    kept
}

/// Whether each item of `a` is one of `b`.
pub fn is_subset(a: &Tuple, b: &Tuple) -> bool
    ensures { IsTrue result ↔ IsSubset a.now b.now }
{
    let wanted = a.items();
    let mut found = 0;
    for item in b.items() {
        if found < wanted.len() && wanted[found] == *item {
            found += 1;
        }
    }
    found == wanted.len()
}

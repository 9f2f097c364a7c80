//! A list of tuples in order, none a subset of another.

ghost use Rattle.std.specs.Prelude.{◌≡◌, ◌↔◌, ◌<◌, List, [], ℕ, All, IsTrue, Some, map, length, slice_get, OnErr, OnOk, IfOk, IfSome, IfNone};
ghost use Rattle.tuple_model.specs.Antichains.{Adds, Covers, CoversSame, IsAntichain};
ghost use Rattle.tuple_order.specs.Codes.{code_of, tuple_of_code};
ghost use Rattle.antichain_list.specs.Held.{IsCode};
ghost use Rattle.antichain_list.specs.Lists.{IsFirstSubset, MatchAdded, Joins, CoversBoth};

use crate::codes::{drop_supersets, first_subset, is_small, itself, place_of, tuple_of};
use crate::marks::{Marks, mark, mark_all};
use crate::merging::add_minimal;
use mask_bytes::OutOfMemory;
use std::alloc::Global;
use std::marker::Model;
use tuple_order::{MOST_ITEMS, Tuple};

/// A list of tuples in order, none a subset of another.
#[derive(Drop)]
pub struct Antichain {
    // Each item that occurs in a tuple of the list is marked.
    marks: Marks,
    codes: Vec<u64>,
}

impl Model for Antichain {
    ghost use Rattle.std.specs.Prelude.{ℕ, List, map};
    ghost use Rattle.tuple_order.specs.Codes.{tuple_of_code};
    ghost use Rattle.antichain_list.specs.Held.{AreHeld};

    ghost Value = { List (List ℕ) };

    ghost view = { λ a. map tuple_of_code a.codes.items };

    ghost invariant = { λ a. AreHeld a.codes.items a.marks };
}

/// What became of a tuple that was to be added.
#[derive(Clone, Copy, Drop)]
pub enum Added {
    /// It is in the list now.
    Kept,
    /// The list has this subset of it, and is as before.
    Covered(Tuple),
}

impl Antichain {
    /// The empty list.
    pub fn new(alloc: Global) -> Antichain
        ensures { result ≡ [] }
    {
        Antichain {
            marks: [false; MOST_ITEMS as usize],
            codes: Vec::new(alloc),
        }
    }

    /// The codes of the tuples, in order.
    pub fn tuples(&self) -> &[u64]
        ensures codes { result.now ≡ map code_of self.now }
        ensures antichain { IsAntichain self.now }
    {
        &self.codes
    }

    /// How many tuples there are.
    pub fn len(&self) -> usize
        ensures { result ≡ length self.now }
    {
        self.codes.len()
    }

    /// Whether there are none.
    pub fn is_empty(&self) -> bool
        ensures { IsTrue result ↔ (self.now ≡ []) }
    {
        self.codes.is_empty()
    }

    /// The tuple at a place.
    pub fn tuple(&self, place: usize) -> Tuple
        requires { place < length self.now }
        ensures { slice_get self.now place ≡ Some result }
    {
        tuple_of(self.tuples()[place])
    }

    /// The first tuple of the list that is a subset of `t`.
    pub fn covers(&self, t: &Tuple) -> Option<Tuple>
        ensures first { IfSome result (λ s. IsFirstSubset self.now t.now s) }
        ensures none { IfNone result (Covers self.now t.now → ⊥) }
        ensures antichain { IsAntichain self.now }
    {
        if self.codes.is_empty() {
            return None;
        }
        if is_small(&self.codes, t) {
            return itself(&self.codes, t);
        }
        first_subset(&self.codes, &self.marks, t)
    }

    /// Adds a tuple and takes out its supersets, unless the list has a subset of it.
    pub fn add(&mut self, t: Tuple) -> Result<Added, OutOfMemory>
        ensures refused { OnErr result (self.new ≡ self.old) }
        ensures added { IfOk result (λ added. MatchAdded self.old self.new t added) }
        ensures antichain { IsAntichain self.new }
    {
        if let Some(s) = self.covers(&t) {
            return Ok(Added::Covered(s));
        }
        self.insert(t)?;
        Ok(Added::Kept)
    }

    /// Adds a tuple that the list doesn't cover, and takes out its supersets.
    pub fn insert(&mut self, t: Tuple) -> Result<(), OutOfMemory>
        requires { Covers self.old t → ⊥ }
        ensures refused { OnErr result (self.new ≡ self.old) }
        ensures added { OnOk result (Adds self.old t self.new) }
        ensures antichain { IsAntichain self.new }
    {
        let code = t.code();
        let place = place_of(&self.codes, code);
        // A refusal comes before anything is taken out.
        self.codes.insert(place, code)?;
        mark(&mut self.marks, &t);
        drop_supersets(&mut self.codes, place + 1, &t);
        Ok(())
    }

    /// Leaves the minimal ones of the tuples of both lists.
    pub fn merge(&mut self, other: &Antichain) -> Result<(), OutOfMemory>
        ensures refused { OnErr result (self.new ≡ self.old) }
        ensures joined { OnOk result (Joins self.old other.now self.new) }
        ensures covers { OnOk result (CoversBoth self.old other.now self.new) }
        ensures antichain { IsAntichain self.new }
    {
        let alloc = *self.codes.allocator();
        let mut codes = Vec::with_capacity(alloc, self.len().saturating_add(other.len()))?;
        add_minimal(&mut codes, &self.codes, &other.codes, &other.marks)?;
        add_minimal(&mut codes, &other.codes, &self.codes, &self.marks)?;
        // Two rising lists stand one after the other, which this sort merges in one pass.
        codes.sort()?;
        codes.dedup();
        self.codes = codes;
        mark_all(&mut self.marks, &other.marks);
        Ok(())
    }
}

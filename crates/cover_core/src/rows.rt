//! Rising lists of numbers, of pairs and of ranges, each seen as the plain list.

ghost use Rattle.std.specs.Prelude.{◌≡◌, [], map};

use std::marker::Model;
use tuple_order::Range;

/// A list of numbers.
#[derive(Drop)]
pub struct Numbers {
    pub(crate) items: Vec<u64>,
}

impl Model for Numbers {
    ghost use Rattle.std.specs.Prelude.{ℕ, List};

    ghost Value = { List ℕ };

    ghost view = { λ n. n.items.items };
}

impl Numbers {
    /// The list of these.
    pub fn from_vec(items: Vec<u64>) -> Numbers
        ensures { result ≡ items.items }
    {
        Numbers { items }
    }

    /// The list, to be read.
    pub fn as_slice(&self) -> &[u64]
        ensures { self.now ≡ result.now }
    {
        &self.items
    }

    /// The list, given back.
    pub fn into_vec(self) -> Vec<u64>
        ensures { self ≡ result.items }
    {
        self.items
    }
}

/// A list of places, each with a number.
#[derive(Drop)]
pub struct Pairs {
    pub(crate) items: Vec<(u32, u64)>,
}

impl Model for Pairs {
    ghost use Rattle.std.specs.Prelude.{ℕ, List};

    ghost Value = { List (ℕ × ℕ) };

    ghost view = { λ p. p.items.items };
}

impl Pairs {
    /// The list of these.
    pub fn from_vec(items: Vec<(u32, u64)>) -> Pairs
        ensures { result ≡ items.items }
    {
        Pairs { items }
    }

    /// The list, to be read.
    pub fn as_slice(&self) -> &[(u32, u64)]
        ensures { self.now ≡ result.now }
    {
        &self.items
    }

    /// The list, given back.
    pub fn into_vec(self) -> Vec<(u32, u64)>
        ensures { self ≡ result.items }
    {
        self.items
    }
}

/// A list of ranges of ranks, each seen as its first rank and its end.
#[derive(Drop)]
pub struct Ranges {
    pub(crate) items: Vec<Range>,
}

impl Model for Ranges {
    ghost use Rattle.std.specs.Prelude.{ℕ, List, map};

    ghost Value = { List (ℕ × ℕ) };

    ghost view = { λ r. map (λ range. (range.from, range.to)) r.items.items };
}

impl Ranges {
    /// The list of these.
    pub fn from_vec(items: Vec<Range>) -> Ranges
        ensures { result ≡ map (λ range. (range.from, range.to)) items.items }
    {
        Ranges { items }
    }

    /// The list, to be read.
    pub fn as_slice(&self) -> &[Range]
        ensures { self.now ≡ map (λ range. (range.from, range.to)) result.now }
    {
        &self.items
    }

    /// The list, given back.
    pub fn into_vec(self) -> Vec<Range>
        ensures { self ≡ map (λ range. (range.from, range.to)) result.items }
    {
        self.items
    }
}

//! The binomial coefficients of an item's weight.

ghost use Rattle.std.specs.Prelude.{◌≡◌, ◌<◌, ◌≤◌, All, IfOk, map};
ghost use Rattle.tuple_model.specs.Limits.{most_size};
ghost use Rattle.wire_table.specs.CodeItems.{item_of};
ghost use Rattle.wire_counts.specs.Coefficients.{weights_of};
ghost use Rattle.wire_counts.specs.Limits.{most_weight};
ghost use Rattle.wire_counts.specs.Ways.{ways_to_choose};

use crate::numbers::MOST_WIRES;
use mask_bytes::OutOfMemory;
use std::alloc::Global;
use std::marker::Model;
use wire_table::Item;

/// The binomial coefficients of an item's weight: in how many ways so many of its wires are chosen. Contracts see the
/// weight.
#[derive(Drop)]
pub struct Binomials {
    // At place k, in how many ways k + 1 wires are chosen.
    numbers: [u128; MOST_WIRES],
}

impl Model for Binomials {
    ghost use Rattle.std.specs.Prelude.{ℕ, slice_index};
    ghost use Rattle.wire_counts.specs.Ways.{AreBinomials};

    ghost Value = { ℕ };

    ghost view = { λ c. slice_index c.numbers 0 };

    ghost invariant = { λ c. AreBinomials c.numbers };
}

impl Binomials {
    /// Those of an item with this weight.
    pub fn make(weight: u32) -> Binomials
        requires { weight ≤ most_weight }
        ensures { result ≡ weight }
    {
        let mut numbers = [0; MOST_WIRES];
        let mut of_size: u128 = 1;
        for place in 0..MOST_WIRES {
            // Each set can be made larger by any wire that it lacks, and each larger one comes from as many sets as it
            // has wires. So the division leaves no rest.
            let lacking = u128::from(weight.saturating_sub(place as u32));
            of_size = of_size * lacking / (place as u128 + 1);
            numbers[place] = of_size;
        }
        Binomials { numbers }
    }

    /// In how many ways one more than `more` wires are chosen.
    pub fn number(&self, more: usize) -> u128
        requires { more < most_size }
        ensures { result ≡ ways_to_choose self.now more }
    {
        self.numbers[more]
    }
}

/// The binomial coefficients of the weight of each item.
pub fn binomials_of(alloc: Global, items: &[Item]) -> Result<Vec<Binomials>, OutOfMemory>
    requires { All (λ weight. weight ≤ most_weight) (weights_of (map item_of items.now)) }
    ensures { IfOk result (λ binomials. binomials.items ≡ weights_of (map item_of items.now)) }
{
    let mut binomials = Vec::with_capacity(alloc, items.len())?;
    for item in items {
        binomials.push(Binomials::make(item.weight))?;
    }
    Ok(binomials)
}

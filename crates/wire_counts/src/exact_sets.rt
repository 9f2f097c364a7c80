//! How many sets of wires have exactly the items of a tuple.

ghost use Rattle.std.specs.Prelude.{◌≡◌, ℕ, ◌+◌, ◌<◌, ◌≤◌, ◌^◌, All, length, slice_index};
ghost use Rattle.tuple_model.specs.Limits.{most_items, most_size};
ghost use Rattle.tuple_model.specs.Tuples.{IsTuple};
ghost use Rattle.wire_counts.specs.Limits.{most_weight};
ghost use Rattle.wire_counts.specs.Ways.{ways_to_choose, convolution, exact_sets as number_of_sets};

use crate::binomials::Binomials;
use crate::numbers::{Numbers, SIZES};
use tuple_order::Tuple;

/// At place k, how many sets of k wires more than the tuple has items have exactly its items, for k up to `room`.
pub fn exact_sets(binomials: &[Binomials], t: &Tuple, room: usize) -> Numbers
    requires items_at_most { length binomials.now ≤ most_items }
    requires weights_at_most { All (λ weight. weight ≤ most_weight) binomials.now }
    requires tuple { IsTuple (length binomials.now) most_size t.now }
    requires room { length t.now + room ≤ most_size }
    ensures { (more : ℕ) → more ≤ room → slice_index result more ≡ number_of_sets binomials.now t.now more }
{
    let items = t.items();
    let mut sets = [0; SIZES];
    sets[0] = 1;
    for place in (0..items.len()).rev() {
        with_item(&binomials[usize::from(items[place])], room, &mut sets);
    }
    sets
}

// Takes one item more into account, by the highest numbers first, since each is made from itself and the lower ones.
fn with_item(binomials: &Binomials, room: usize, sets: &mut Numbers)
    requires room { room < most_size }
    requires fits { (more : ℕ) → more ≤ room →
        convolution (ways_to_choose binomials.now) (slice_index sets.old) more < 2 ^ 128 }
    ensures { (more : ℕ) → more ≤ room →
        slice_index sets.new more ≡ convolution (ways_to_choose binomials.now) (slice_index sets.old) more }
{
    for more in (0..room + 1).rev() {
        sets[more] = convolved(binomials, sets, more);
    }
}

// How many sets have `more` wires more, some of them of the item taken in.
fn convolved(binomials: &Binomials, sets: &Numbers, more: usize) -> u128
    requires few { more < most_size }
    requires fits { convolution (ways_to_choose binomials.now) (slice_index sets.now) more < 2 ^ 128 }
    ensures { result ≡ convolution (ways_to_choose binomials.now) (slice_index sets.now) more }
{
    let mut total = 0;
    for taken in 0..more + 1 {
        total += binomials.number(taken) * sets[more - taken];
    }
    total
}

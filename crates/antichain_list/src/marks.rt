//! Which items occur in the tuples of a list.

ghost use Rattle.std.specs.Prelude.{◌⊎◌, ℕ, Contains};
ghost use Rattle.tuple_model.specs.Tuples.{IsSubset};
ghost use Rattle.antichain_list.specs.Held.{IsMarked};

use tuple_order::{MOST_ITEMS, Tuple, subset};

/// For each item, whether it is marked.
pub type Marks = [bool; MOST_ITEMS as usize];

/// Marks the items of a tuple.
pub fn mark(marks: &mut Marks, t: &Tuple)
    ensures { (item : ℕ) → (IsMarked marks.old item ⊎ Contains t.now item) → IsMarked marks.new item }
{
    for item in t.items() {
        marks[usize::from(*item)] = true;
    }
}

/// Marks what the others mark too.
pub fn mark_all(marks: &mut Marks, others: &Marks)
    ensures { (item : ℕ) → (IsMarked marks.old item ⊎ IsMarked others.now item) → IsMarked marks.new item }
{
    for item in 0..others.len() {
        marks[item] |= others[item];
    }
}

/// A subset of a tuple that has all its marked items.
pub fn marked_part(marks: &Marks, t: &Tuple) -> Tuple
    ensures subset { IsSubset result t.now }
    ensures marked { (item : ℕ) → Contains t.now item → IsMarked marks.now item → Contains result item }
{
    let items = t.items();
    let mut number = 0;
    for place in (0..items.len()).rev() {
        number = 2 * number + u8::from(marks[usize::from(items[place])]);
    }
    subset(number, t)
}

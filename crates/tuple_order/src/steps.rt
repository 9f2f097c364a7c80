//! The step to the next list of a size, in place.

ghost use Rattle.std.specs.Prelude.{◌≡◌, ℕ, ◌+◌, ◌^◌, ◌<◌, length, IfSome, IfNone, false, IsTrue, Some, None};
ghost use Rattle.tuple_order.specs.Steps.{numbers_from, next_of_size, CanRaise};

/// Makes the next list of the same size below `high`, or answers false at the last one.
pub fn raise(high: u16, items: &mut [u16]) -> bool
    ensures raised { IsTrue result → next_of_size high items.old ≡ Some items.new }
    ensures last { result ≡ false → next_of_size high items.old ≡ None }
    ensures stays { result ≡ false → items.new ≡ items.old }
{
    match last_to_raise(high, items) {
        Some(place) => {
            let first = items[place] + 1;
            number_from(first, &mut items[place..]);
            true
        }
        None => false,
    }
}

/// The last place whose item can be raised.
fn last_to_raise(high: u16, items: &[u16]) -> Option<usize>
    ensures found { IfSome result (λ place. CanRaise high items.now place) }
    ensures last { IfSome result (λ place. (later : ℕ) → place < later → CanRaise high items.now later → ⊥) }
    ensures none { IfNone result ((place : ℕ) → CanRaise high items.now place → ⊥) }
{
    for place in (0..items.len()).rev() {
        if usize::from(items[place]) + (items.len() - place) < usize::from(high) {
            return Some(place);
        }
    }
    None
}

/// Writes the numbers in a row from `first` on.
pub fn number_from(first: u16, places: &mut [u16])
    requires { first + length places.old < 2 ^ 16 }
    ensures { places.new ≡ numbers_from first (length places.old) }
{
    let mut item = first;
    for place in places {
        *place = item;
        item += 1;
    }
}

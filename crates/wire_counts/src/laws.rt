//! Laws of the sets of wires that are counted, and of coefficients for any meaning of failing.

ghost use Rattle.std.specs.Prelude.{◌≡◌, ◌≢◌, ◌↔◌, ℕ, List, map, length, Contains, AllPairs};
ghost use Rattle.tuple_model.specs.Tuples.{IsTuple};
ghost use Rattle.tuple_model.specs.Minimal.{IsAnswer};
ghost use Rattle.tuple_model.specs.Antichains.{Covers};
ghost use Rattle.wire_counts.specs.Coefficients.{Wire, AreCoefficients, item_wires, items_of_wires, sets_of_size};
ghost use Rattle.wire_counts.specs.Laws.{IsInherited, IsWireSet};

use tuple_model::Failing;

/// The sets of so many wires that are counted are all sets of so many different wires of the items, each once. The
/// items of a set are those of its wires, as a tuple.
pub fn wire_sets_law()
    ensures all { (weights : List ℕ) (i : ℕ) (set : List Wire) →
        Contains (sets_of_size i (item_wires weights)) set ↔ IsWireSet weights i set }
    ensures once { (weights : List ℕ) (i : ℕ) → AllPairs (λ a b. a ≢ b) (sets_of_size i (item_wires weights)) }
    ensures items { (set : List Wire) (item : ℕ) →
        Contains (items_of_wires set) item ↔ Contains (map (λ wire. wire.item) set) item }
    ensures tuple { (weights : List ℕ) (i : ℕ) (set : List Wire) → IsWireSet weights i set →
        IsTuple (length weights) i (items_of_wires set) }
{}

/// There is one list of coefficients. Where failing passes to supersets, the coefficients up to the size of an answer
/// count the sets of wires whose items have a subset in the answer.
pub fn coefficient_law<F: Failing>()
    ensures once { (weights : List ℕ) (size : ℕ) (numbers others : List ℕ) →
        AreCoefficients F.Fails weights size numbers → AreCoefficients F.Fails weights size others →
        numbers ≡ others }
    ensures same { (weights : List ℕ) (size : ℕ) (answer : List (List ℕ)) (numbers : List ℕ) → IsInherited F.Fails →
        IsAnswer F.Fails (length weights) size answer →
        AreCoefficients F.Fails weights size numbers ↔ AreCoefficients (Covers answer) weights size numbers }
{}

//! Sets of items, their order, and the minimal ones among those that fail: definitions and their laws.
#![tactic(auto)]

ghost use Rattle.std.specs.Prelude.{◌≡◌, ◌↔◌, ◌⊎◌, ◌^◌, ◌<◌, ◌≤◌, ℕ, suc, List, [], length, AllPairs, Contains};
ghost use Rattle.tuple_model.specs.Limits.{most_items, most_size};
ghost use Rattle.tuple_model.specs.Tuples.{IsTuple, IsRising, IsBefore, IsSubset, HasRank, tuples, subset};
ghost use Rattle.tuple_model.specs.Minimal.{IsMinimal, IsAnswer};
ghost use Rattle.tuple_model.specs.Antichains.{Covers, IsAntichain, CoversSame, CoversFailing, Adds, CoversMore};

/// What it means that a set of items fails.
pub trait Failing {
    ghost Fails: { List ℕ → Type 0 };
}

/// The list of all tuples has each of them, once, in order.
pub fn tuples_law()
    ensures members { (items size : ℕ) (t : List ℕ) → Contains (tuples items size) t ↔ IsTuple items size t }
    ensures ordered { (items size : ℕ) → AllPairs IsBefore (tuples items size) }
{}

/// A tuple has one rank, and tuples are ordered as their ranks. A rank below the number of tuples of at most so many
/// items is that of a tuple of at most so many.
pub fn rank_law()
    ensures once { (items size i j : ℕ) (t : List ℕ) → HasRank items size t i → HasRank items size t j → i ≡ j }
    ensures ordered { (items size i j : ℕ) (s t : List ℕ) → HasRank items size s i → HasRank items size t j →
        IsBefore s t ↔ i < j }
    ensures short { (items size most rank : ℕ) (t : List ℕ) → HasRank items size t rank →
        rank < length (tuples items most) → length t ≤ most }
{}

/// The subsets of a tuple by number are the tuples all of whose items it has, each once; the last number gives the
/// tuple itself, and each lower one a smaller tuple.
pub fn subset_law()
    ensures subsets { (items : ℕ) (s t : List ℕ) → IsRising 0 items t →
        ((k : ℕ) × (k < 2 ^ length t) × (subset k t ≡ s)) ↔ (IsRising 0 items s × IsSubset s t) }
    ensures once { (items j k : ℕ) (t : List ℕ) → IsRising 0 items t →
        j < 2 ^ length t → k < 2 ^ length t → subset j t ≡ subset k t → j ≡ k }
    ensures whole { (k : ℕ) (t : List ℕ) → suc k ≡ 2 ^ length t → subset k t ≡ t }
    ensures proper { (k : ℕ) (t : List ℕ) → suc k < 2 ^ length t → length (subset k t) < length t }
{}

/// A query has at most one answer.
pub fn one_answer_law<F: Failing>()
    ensures { (items size : ℕ) (a b : List (List ℕ)) →
        IsAnswer F.Fails items size a → IsAnswer F.Fails items size b → a ≡ b }
{}

/// The answer has exactly the minimal failing tuples, in order. Each failing tuple has a subset in it, so it is empty
/// exactly where no tuple fails. Failing need not be inherited by supersets, and it need not be settled for each tuple
/// whether it fails.
pub fn answer_law<F: Failing>()
    ensures members { (items size : ℕ) (answer : List (List ℕ)) → IsAnswer F.Fails items size answer →
        (t : List ℕ) → Contains answer t ↔ (IsTuple items size t × IsMinimal F.Fails t) }
    ensures ordered { (items size : ℕ) (answer : List (List ℕ)) →
        IsAnswer F.Fails items size answer → AllPairs IsBefore answer }
    ensures answered { (items size : ℕ) (answer : List (List ℕ)) → IsAnswer F.Fails items size answer →
        (t : List ℕ) → IsTuple items size t → F.Fails t → (k : ℕ) × (k < 2 ^ length t) × Contains answer (subset k t) }
{}

/// An antichain is determined by what it covers.
pub fn antichain_law()
    ensures { (one other : List (List ℕ)) → IsAntichain one → IsAntichain other → CoversSame one other → one ≡ other }
{}

/// An antichain that covers exactly the tuples with a failing subset is the answer. Failing need not be inherited by
/// supersets, and it need not be settled for each tuple whether it fails.
pub fn covering_law<F: Failing>()
    ensures { (items size : ℕ) (list : List (List ℕ)) →
        IsAntichain list → CoversFailing F.Fails items size list → IsAnswer F.Fails items size list }
{}

/// Where a tuple that the list doesn't cover comes in and its supersets go, the list in order is an antichain again,
/// and covers what it covered and the supersets of the tuple.
pub fn adding_law()
    ensures antichain { (before after : List (List ℕ)) (t : List ℕ) → IsAntichain before →
        IsTuple most_items most_size t → (Covers before t → ⊥) → Adds before t after →
        AllPairs IsBefore after → IsAntichain after }
    ensures covers { (before after : List (List ℕ)) (t : List ℕ) → Adds before t after → CoversMore before t after }
{}

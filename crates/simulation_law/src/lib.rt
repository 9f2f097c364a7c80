//! When values with added randoms can be simulated from some input shares: the law of elimination,
//! and the law of products for what is left of the values.
#![tactic(auto)]

ghost use Rattle.std.specs.Prelude.{◌≡◌, ◌≢◌, ◌↔◌, ◌<◌, ◌^◌, ℕ, Bool, true, false, List, length, map, slice_index_or, All, AllPairs};
ghost use Rattle.bit_lists.specs.BitLists.{chosen_sum};
ghost use Rattle.gadget_model.specs.Circuit.{Circuit};
ghost use Rattle.gadget_model.specs.Polynomials.{set_product};
ghost use Rattle.gadget_model.specs.Simulation.{IsSimulatable, IsWithin};
ghost use Rattle.simulation_law.specs.Linear.{IsLinear, linear_distribution};
ghost use Rattle.simulation_law.specs.Elimination.{IsSimulatableFrom, IsFunctionOf, CancelledSumsAreFunctionsOf, HasAdditiveRandoms};

/// Values of the form f(x) + M r, with any function f of the inputs and a linear map M of the
/// randoms, are simulatable from a set of input shares exactly where each sum of chosen values in
/// which all randoms cancel is a function of the shares in the set. A choice has a bit for each value.
pub fn elimination_law()
    ensures { (randoms values : ℕ) (f : (ℕ → Bool) → List Bool) (M : List Bool → List Bool) (set : ℕ) →
        ((x : ℕ → Bool) → length (f x) ≡ values) → IsLinear randoms values M →
        IsSimulatableFrom (λ x. linear_distribution randoms M (f x)) set
        ↔ CancelledSumsAreFunctionsOf randoms values f M set }
{}

/// Probes that observe f(x) + M r, for the gadget's randoms r, are simulatable from a set of input
/// shares exactly where each sum of chosen probes in which all randoms cancel is a function of the
/// shares in the set.
pub fn circuit_law()
    ensures { (g : Circuit) (probes : List ℕ) (f : (ℕ → Bool) → List Bool) (M : List Bool → List Bool) (set : ℕ) →
        HasAdditiveRandoms g probes f M →
        IsSimulatable g probes set ↔ CancelledSumsAreFunctionsOf g.randoms (length probes) f M set }
{}

/// A sum of different products of input shares is a function of the shares in a set exactly where
/// each of the products has its shares in the set.
pub fn products_law()
    ensures { (products : List ℕ) (choice : List Bool) (set : ℕ) →
        AllPairs (λ p q. p ≢ q) products → All (λ p. p < 2 ^ 64) products → length choice ≡ length products →
        IsFunctionOf (λ x. chosen_sum choice (map (λ p. set_product 64 p x) products)) set
        ↔ ((j : ℕ) → j < length products → slice_index_or choice j false ≡ true →
        IsWithin (slice_index_or products j 0) set) }
{}

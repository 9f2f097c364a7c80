//! Gadgets as plain data and what probes on them observe: definitions and their laws.
#![tactic(auto)]

ghost use Rattle.std.specs.Prelude.{◌≡◌, ◌≢◌, ◌==◌, ◌↔◌, ℕ, ◌%◌, ◌<◌, ◌⊎◌, Bool, List, [], Some, slice_get, Contains, AllPairs, length, count_by};
ghost use Rattle.gadget_model.specs.Bits.{add, assignments};
ghost use Rattle.gadget_model.specs.Circuit.{Circuit, Node, nodes, share, value_of, value, IsInOrder};
ghost use Rattle.gadget_model.specs.Simulation.{IsSimulatable, IsWithin, HasShare, HasAllShares};
ghost use Rattle.gadget_model.specs.Polynomials.{HasVariable, stands_in, symmetric_difference, odd_ones, polynomial, polynomial_value};
ghost use Rattle.gadget_model.specs.Classes.{IsShare, IsRandom};

/// The list of all assignments of n random bits has each list of n bits, once.
pub fn assignments_law()
    ensures members { (n : ℕ) (r : List Bool) → Contains (assignments n) r ↔ (length r ≡ n) }
    ensures once { (n : ℕ) → AllPairs (λ a b. a ≢ b) (assignments n) }
{}

/// The value of a wire is that of its operation on the values of its operands.
pub fn value_law()
    ensures { (g : Circuit) → IsInOrder g → (x : ℕ → Bool) (r : List Bool) (v : ℕ) (node : Node) →
        slice_get (nodes g) v ≡ Some node → value g x r v ≡ value_of x r (value g x r) node }
{}

/// Fewer probes are simulatable from more shares.
pub fn monotone_law()
    ensures { (g : Circuit) (probes fewer : List ℕ) (set more : ℕ) →
        IsSimulatable g probes set → ((v : ℕ) → Contains fewer v → Contains probes v) → IsWithin set more →
        IsSimulatable g fewer more }
{}

/// Any probes are simulatable from all input shares.
pub fn all_shares_law()
    ensures { (g : Circuit) (probes : List ℕ) (set : ℕ) → HasAllShares g set → IsSimulatable g probes set }
{}

/// No probes are simulatable from no shares.
pub fn no_probes_law()
    ensures { (g : Circuit) → IsSimulatable g [] 0 }
{}

/// A share in the clear is simulatable only from sets that have it: with both shares of a
/// two-share input among the probes, one of them is not enough.
pub fn clear_share_law()
    ensures { (g : Circuit) (probes : List ℕ) (set v k : ℕ) → IsInOrder g → Contains probes v →
        slice_get (nodes g) v ≡ Some (share k) → IsSimulatable g probes set → HasShare set k }
{}

/// The value of a wire is that of its polynomial at the values of the input shares and randoms.
pub fn polynomial_law()
    ensures value { (g : Circuit) → IsInOrder g → (x : ℕ → Bool) (r : List Bool) (v : ℕ) → v < length g.variables →
        value g x r v ≡ polynomial_value (length g.variables) (polynomial g v) (value g x r) }
    ensures once { (g : Circuit) (v : ℕ) → AllPairs (λ a b. a ≢ b) (polynomial g v) }
    ensures leaves { (g : Circuit) → IsInOrder g → (v m w : ℕ) → Contains (polynomial g v) m → HasVariable m w →
        IsShare g w ⊎ IsRandom g w }
{}

/// A monomial is in the symmetric difference of two sets where it is in exactly one of them.
pub fn symmetric_difference_law()
    ensures { (p q : List ℕ) (m : ℕ) → stands_in m (symmetric_difference p q) ≡ add (stands_in m p) (stands_in m q) }
{}

/// A monomial is among the odd ones of a list where it stands in the list an odd number of times.
pub fn odd_ones_law()
    ensures { (ms : List ℕ) (m : ℕ) → stands_in m (odd_ones ms) ≡ (count_by (λ w. w == m) ms % 2 == 1) }
{}

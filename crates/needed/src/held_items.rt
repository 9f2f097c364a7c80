//! The items of a tuple, with the elimination of the variables that they observe.

ghost use Rattle.std.specs.Prelude.{◌≡◌, ◌↔◌, ◌+◌, ◌<◌, ◌≤◌, List, [], ◌∷◌, ◌++◌, ℕ, All, length, take};
ghost use Rattle.gadget_model.specs.Circuit.{Circuit};
ghost use Rattle.gadget_model.specs.Simulation.{IsSimulatable, IsWithin};
ghost use Rattle.tuple_model.specs.Limits.{most_size};
ghost use Rattle.wire_table.specs.Tables.{StandsFor};
ghost use Rattle.needed.specs.HeldItems.{AreObserved, HoldsItems, HoldsItemsAlone, held_by, observed_of};
ghost use Rattle.needed.specs.Others.{most_others};
ghost use Rattle.needed.specs.TestedItems.{variables_at};

use crate::elimination::Elimination;
use arrayvec::ArrayVec;
use gadget_limits::MOST_OUTPUTS;

// A tuple has at most so many items.
const MOST_SIZE: usize = 6;

/// The variables that an item observes.
pub type Observed = ArrayVec<u16, MOST_OUTPUTS>;

/// The items of a tuple, with the elimination of the variables that they observe, and of others after them.
#[derive(Drop)]
pub struct HeldItems<'t> {
    items: [u16; MOST_SIZE],
    count: usize,
    elimination: Elimination<'t>,
}

impl<'t> HeldItems<'t> {
    /// No items, and an elimination of no variables.
    pub fn new(elimination: Elimination<'t>) -> Self
        ensures held { (observed : List (List ℕ)) → HoldsItems observed result }
        ensures elimination { result.elimination ≡ elimination.entry }
    {
        HeldItems {
            items: [0; MOST_SIZE],
            count: 0,
            elimination,
        }
    }

    /// Holds the items of this tuple and after them other variables, and gives the least set of input shares from which
    /// all their variables can be simulated. The items that the last tuple began with too stay as they are.
    pub fn needed(&mut self, observed: &[Observed], tuple: &[u16], others: &[u16]) -> u64
        requires held { HoldsItems (observed_of observed.now) self.old }
        requires observed { AreObserved (length self.old.elimination.table.random_rows) (observed_of observed.now) }
        requires there { All (λ i. i < length observed.now) tuple.now }
        requires short { length tuple.now ≤ most_size }
        requires few_others { length others.now ≤ most_others }
        requires others { All (λ v. v < length self.old.elimination.table.random_rows) others.now }
        ensures held { HoldsItems (observed_of observed.now) self.new }
        ensures table { self.new.elimination.table ≡ self.old.elimination.table }
        ensures least { (g : Circuit) (set : ℕ) → StandsFor self.old.elimination.table g →
            IsSimulatable g (variables_at (observed_of observed.now) tuple.now ++ others.now) set
            ↔ IsWithin result set }
    {
        self.hold(observed, tuple);
        self.elimination.extend(others);
        self.elimination.least()
    }

    // Holds the items of this tuple, and no other variables.
    fn hold(&mut self, observed: &[Observed], tuple: &[u16])
        requires held { HoldsItems (observed_of observed.now) self.old }
        requires observed { AreObserved (length self.old.elimination.table.random_rows) (observed_of observed.now) }
        requires there { All (λ i. i < length observed.now) tuple.now }
        requires short { length tuple.now ≤ most_size }
        ensures held { HoldsItemsAlone (observed_of observed.now) self.new }
        ensures items { held_by self.new ≡ tuple.now }
        ensures table { self.new.elimination.table ≡ self.old.elimination.table }
    {
        let common = common_prefix(&self.items[..self.count], tuple);
        self.truncate(observed, common);
        for &item in &tuple[common..] {
            self.push(observed, item);
        }
    }

    // Keeps the first items alone, and no other variables.
    fn truncate(&mut self, observed: &[Observed], count: usize)
        requires held { HoldsItems (observed_of observed.now) self.old }
        requires fewer { count ≤ self.old.count }
        ensures held { HoldsItemsAlone (observed_of observed.now) self.new }
        ensures count { self.new.count ≡ count }
        ensures items { self.new.items ≡ self.old.items }
        ensures table { self.new.elimination.table ≡ self.old.elimination.table }
    {
        self.count = count;
        let vars = variable_count(observed, &self.items[..count]);
        self.elimination.truncate(vars);
    }

    // Adds an item at the end.
    fn push(&mut self, observed: &[Observed], item: u16)
        requires held { HoldsItemsAlone (observed_of observed.now) self.old }
        requires observed { AreObserved (length self.old.elimination.table.random_rows) (observed_of observed.now) }
        requires there { item < length observed.now }
        requires few { self.old.count < most_size }
        ensures held { HoldsItemsAlone (observed_of observed.now) self.new }
        ensures count { self.new.count ≡ self.old.count + 1 }
        ensures items { held_by self.new ≡ held_by self.old ++ item ∷ [] }
        ensures table { self.new.elimination.table ≡ self.old.elimination.table }
    {
        self.elimination
            .extend(observed[usize::from(item)].as_slice());
        self.items[self.count] = item;
        self.count += 1;
    }
}

// How many items both tuples begin with.
fn common_prefix(held: &[u16], asked: &[u16]) -> usize
    ensures held { result ≤ length held.now }
    ensures asked { result ≤ length asked.now }
    ensures common { take result held.now ≡ take result asked.now }
{
    let mut common = 0;
    while common < held.len() && common < asked.len() && held[common] == asked[common] {
        common += 1;
    }
    common
}

// How many variables some items observe.
fn variable_count(observed: &[Observed], items: &[u16]) -> usize
    requires there { All (λ i. i < length observed.now) items.now }
    requires short { length items.now ≤ most_size }
    ensures { result ≡ length (variables_at (observed_of observed.now) items.now) }
{
    let mut count = 0;
    for &item in items {
        count += observed[usize::from(item)].len();
    }
    count
}

//! Whether input shares exceed what an event allows.

ghost use Rattle.std.specs.Prelude.{◌≡◌, ◌↔◌, ◌<◌, ◌≤◌, IsTrue, false, All, length, map};
ghost use Rattle.gadget_limits.specs.Limits.{most_inputs};
ghost use Rattle.gadget_model.specs.Circuit.{Circuit};
ghost use Rattle.tuple_model.specs.Limits.{most_size};
ghost use Rattle.wire_table.specs.Tables.{StandsFor};
ghost use Rattle.needed.specs.Others.{most_others};
ghost use Rattle.needed.specs.ShareCounts.{shares_of};
ghost use Rattle.needed.specs.TestedItems.{variables_at};
ghost use Rattle.rp_events.specs.Failing.{Exceeds};
ghost use Rattle.rp_events.specs.Questions.{IsSmallWhich};
ghost use Rattle.rp_events.specs.Inside.{AllExceed, SomeDoNotExceed};

use needed::{ItemScratch, share_indices};
use wire_table::Which;

/// Whether input shares exceed whichever of these lists of output shares is simulated beside a tuple, and from
/// whichever input shares. The least set of input shares decides for each list. Takes no memory.
pub(crate) fn all_exceed(
    scratch: &mut ItemScratch<'_>,
    tuple: &[u16],
    lists: &[Vec<u16>],
    inputs: u8,
    which: Which,
    t: u8,
) -> bool
    requires inputs { inputs ≤ most_inputs }
    requires which { IsSmallWhich which }
    requires there { All (λ i. i < length scratch.old.observed) tuple.now }
    requires short { length tuple.now ≤ most_size }
    requires few_others { All (λ others. length others.items ≤ most_others) lists.now }
    requires others { All (λ others. All (λ v. v < length scratch.old.table.random_rows) others.items) lists.now }
    ensures scratch { scratch.new ≡ scratch.old }
    ensures all { IsTrue result → (g : Circuit) → StandsFor scratch.old.table g → length g.inputs ≡ inputs →
        AllExceed g t which (variables_at scratch.old.observed tuple.now) (map (λ others. others.items) lists.now) }
    ensures some { result ≡ false → (g : Circuit) → StandsFor scratch.old.table g → length g.inputs ≡ inputs →
        SomeDoNotExceed g t which (variables_at scratch.old.observed tuple.now)
        (map (λ others. others.items) lists.now) }
{
    for others in lists {
        let least = scratch.needed(tuple, others);
        if !exceeds(least, inputs, which, t) {
            return false;
        }
    }
    true
}

// Whether a set of shares of so many inputs exceeds at order `t`.
fn exceeds(set: u64, inputs: u8, which: Which, t: u8) -> bool
    requires inputs { inputs ≤ most_inputs }
    requires which { IsSmallWhich which }
    ensures { (g : Circuit) → length g.inputs ≡ inputs → IsTrue result ↔ Exceeds g t which set }
{
    match which {
        Which::Any => (0..inputs).any(|input| has_more(set, input, t)),
        Which::Input(input) => has_more(set, input, t),
        Which::Both => has_more(set, 0, t) && has_more(set, 1, t),
    }
}

// Whether a set has more than `t` shares of an input.
fn has_more(set: u64, input: u8, t: u8) -> bool
    requires { input < most_inputs }
    ensures { IsTrue result ↔ (t < shares_of input set) }
{
    share_indices(set, input).count_ones() > u32::from(t)
}

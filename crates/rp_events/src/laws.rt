//! Laws of the tuples that fail for an event.

ghost use Rattle.std.specs.Prelude.{ℕ, List};
ghost use Rattle.gadget_model.specs.Circuit.{Circuit};
ghost use Rattle.tuple_model.specs.Tuples.{IsSubset};
ghost use Rattle.wire_table.specs.Items.{Item};
ghost use Rattle.rp_events.specs.Events.{Event};
ghost use Rattle.rp_events.specs.Failing.{FailsEvent};

/// A tuple fails for an event where some of its items do.
pub fn failing_is_inherited_law()
    ensures { (g : Circuit) (t : ℕ) (event : Event) (items : List Item) (s u : List ℕ) → IsSubset s u →
        FailsEvent g t event items s → FailsEvent g t event items u }
{}

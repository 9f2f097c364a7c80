//! Over which inputs a task asks.

ghost use Rattle.std.specs.Prelude.{◌≡◌, ◌≤◌, length};
ghost use Rattle.rp_events.specs.Choices.{whiches_of};

use crate::rp::Rp;
use gadget_tree::Gadget;
use wire_table::Which;

/// Over which inputs a task asks: each event has one of these.
pub(crate) fn whiches_of(gadget: &Gadget, rp: Rp) -> &'static [Which]
    ensures whiches { result.now ≡ whiches_of rp gadget.now }
    ensures few { length result.now ≤ 3 }
{
    match rp {
        Rp::Rpc => &[Which::Any],
        Rp::Rpe if gadget.inputs().len() == 1 => &[Which::Input(0)],
        Rp::Rpe => &[Which::Input(0), Which::Input(1), Which::Both],
    }
}

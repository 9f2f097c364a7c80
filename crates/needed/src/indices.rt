//! The indices of the shares of an input in a set.

ghost use Rattle.std.specs.Prelude.{◌≡◌, ◌↔◌, ◌+◌, ◌*◌, ◌<◌, ℕ};
ghost use Rattle.std.specs.Int.Count.{ones};
ghost use Rattle.gadget_limits.specs.Limits.{most_inputs, most_shares};
ghost use Rattle.gadget_model.specs.Simulation.{HasShare};
ghost use Rattle.needed.specs.ShareCounts.{shares_of};

/// The indices of the shares of an input that are in a set, as bits.
pub fn share_indices(set: u64, input: u8) -> u16
    requires { input < most_inputs }
    ensures count { ones result ≡ shares_of input set }
    ensures indices { (index : ℕ) → index < most_shares →
        HasShare result index ↔ HasShare set (16 * input + index) }
{
    ((set >> (16 * input)) & 0xffff) as u16
}

//! The variables of sets of output shares.

ghost use Rattle.std.specs.Prelude.{◌≡◌, All, IfOk, map};
ghost use Rattle.rp_events.specs.Failing.{shares_in};
ghost use Rattle.rp_events.specs.Questions.{IsOutputSet};

use gadget_tree::Gadget;
use mask_bytes::OutOfMemory;
use std::alloc::Global;

/// The variables of each set, in order.
pub(crate) fn shares_in_each(
    alloc: Global,
    gadget: &Gadget,
    sets: &[u32],
) -> Result<Vec<Vec<u16>>, OutOfMemory>
    requires { All (IsOutputSet gadget.now) sets.now }
    ensures { IfOk result (λ lists. map (λ vars. vars.items) lists.items ≡ map (shares_in gadget.now) sets.now) }
{
    let mut lists = Vec::new(alloc);
    for &set in sets {
        lists.push(shares_in(alloc, gadget, set)?)?;
    }
    Ok(lists)
}

// The variables of a set, in order.
fn shares_in(alloc: Global, gadget: &Gadget, set: u32) -> Result<Vec<u16>, OutOfMemory>
    requires { IsOutputSet gadget.now set }
    ensures { IfOk result (λ vars. vars.items ≡ shares_in gadget.now set) }
{
    let mut vars = Vec::new(alloc);
    for share in 0..32 {
        if (set >> share) & 1 == 1 {
            vars.push(gadget.out_var(share / 16, share % 16))?;
        }
    }
    Ok(vars)
}

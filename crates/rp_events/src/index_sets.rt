//! Sets of indices, and how many there are.

ghost use Rattle.std.specs.Prelude.{◌≡◌, ◌≤◌, IfOk, length, map};
ghost use Rattle.gadget_limits.specs.Limits.{most_shares};
ghost use Rattle.rp_events.specs.Events.{index_sets};

use itertools::Itertools;
use mask_bytes::OutOfMemory;
use std::alloc::Global;

/// The sets of `size` of `n` indices, in lexicographic order.
pub(crate) fn index_sets(alloc: Global, n: u8, size: u8) -> Result<Vec<Vec<u8>>, OutOfMemory>
    ensures { IfOk result (λ sets. map (λ set. set.items) sets.items ≡ index_sets n size) }
{
    let mut sets = Vec::new(alloc);
    for set in (0..n).combinations(alloc, usize::from(size))? {
        sets.push(set?)?;
    }
    Ok(sets)
}

/// How many sets of `size` of `n` indices there are.
pub(crate) fn count_index_sets(n: u8, size: u8) -> u64
    requires { n ≤ most_shares }
    ensures count { result ≡ length (index_sets n size) }
    ensures few { result ≤ 65536 }
{
    let mut count: u64 = 1;
    for chosen in 0..size {
        // Each set can be made larger by any index that it lacks, and each larger one comes from as many sets as it
        // has indices. So the division leaves no rest.
        count = count * u64::from(n.saturating_sub(chosen)) / (u64::from(chosen) + 1);
    }
    count
}

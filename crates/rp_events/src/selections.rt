//! Selections: one of each list, in all ways.

ghost use Rattle.std.specs.Prelude.{◌≡◌, ◌∷◌, ◌++◌, [], flat_map, map, IfOk, OnOk};
ghost use Rattle.rp_events.specs.Events.{selections};

use mask_bytes::OutOfMemory;
use std::alloc::Global;

/// One of each list, in all ways. The choice from the first list varies slowest.
pub(crate) fn selections<T: Copy + Drop>(
    alloc: Global,
    lists: &[&[T]],
) -> Result<Vec<Vec<T>>, OutOfMemory>
    ensures { IfOk result (λ found.
        map (λ one. one.items) found.items ≡ selections (map (λ list. list.now) lists.now)) }
{
    let mut found = Vec::new(alloc);
    found.push(Vec::new(alloc))?;
    for list in lists {
        found = longer(alloc, &found, list)?;
    }
    Ok(found)
}

// Each of these lists with one element more, in all ways.
fn longer<T: Copy + Drop>(
    alloc: Global,
    lists: &[Vec<T>],
    more: &[T],
) -> Result<Vec<Vec<T>>, OutOfMemory>
    ensures { IfOk result (λ found. map (λ one. one.items) found.items
        ≡ flat_map (λ list. map (λ x. list.items ++ x ∷ []) more.now) lists.now) }
{
    let mut found = Vec::new(alloc);
    for list in lists {
        push_longer(alloc, &mut found, list, more)?;
    }
    Ok(found)
}

// Adds this list with each of these elements.
fn push_longer<T: Copy + Drop>(
    alloc: Global,
    found: &mut Vec<Vec<T>>,
    list: &[T],
    more: &[T],
) -> Result<(), OutOfMemory>
    ensures { OnOk result (map (λ one. one.items) found.new.items
        ≡ map (λ one. one.items) found.old.items ++ map (λ x. list.now ++ x ∷ []) more.now) }
{
    for x in more {
        let mut one = Vec::new(alloc);
        one.extend_from_slice(list)?;
        one.push(*x)?;
        found.push(one)?;
    }
    Ok(())
}

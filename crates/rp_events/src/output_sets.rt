//! Sets of output shares as numbers.

ghost use Rattle.std.specs.Prelude.{◌≡◌, ◌+◌, ◌*◌, ◌^◌, ◌<◌, ◌≤◌, ◌++◌, IfOk, OnOk};
ghost use Rattle.std.specs.Prelude.{All, flat_map, length, map};
ghost use Rattle.gadget_limits.specs.Limits.{most_outputs, most_shares};
ghost use Rattle.tuple_model.specs.Tuples.{IsRising};
ghost use Rattle.rp_events.specs.Events.{selections, set_from};
ghost use Rattle.rp_events.specs.Choices.{AreIndices, indices_meant, shares_at};

use crate::choices::Choice;
use mask_bytes::OutOfMemory;
use std::alloc::Global;

/// The sets of output shares that these choices mean, by the shares of the first output and then by those of the
/// second.
pub(crate) fn output_sets(alloc: Global, given: &[Choice<'_>]) -> Result<Vec<u32>, OutOfMemory>
    requires few { length given.now ≤ most_outputs }
    requires choices { All AreIndices given.now }
    ensures { IfOk result (λ sets. sets.items ≡ map (set_from 0) (selections (map indices_meant given.now))) }
{
    let mut sets = Vec::new(alloc);
    sets.push(0)?;
    for (output, choice) in given.iter().enumerate() {
        sets = with_output(alloc, &sets, output as u32, *choice)?;
    }
    Ok(sets)
}

// Each of these sets with each set of shares of one output more.
fn with_output(
    alloc: Global,
    sets: &[u32],
    output: u32,
    choice: Choice<'_>,
) -> Result<Vec<u32>, OutOfMemory>
    requires output { output < most_outputs }
    requires choice { AreIndices choice }
    requires below { All (λ set. set < 2 ^ (16 * output)) sets.now }
    ensures sets { IfOk result (λ all. all.items
        ≡ flat_map (λ set. map (λ indices. set + shares_at output indices) (indices_meant choice.entry)) sets.now) }
    ensures below { IfOk result (λ all. All (λ set. set < 2 ^ (16 * (output + 1))) all.items) }
{
    let mut all = Vec::new(alloc);
    for set in sets {
        push_with(&mut all, *set, output, choice)?;
    }
    Ok(all)
}

// Adds this set with each set of shares of an output.
fn push_with(
    all: &mut Vec<u32>,
    set: u32,
    output: u32,
    choice: Choice<'_>,
) -> Result<(), OutOfMemory>
    requires output { output < most_outputs }
    requires choice { AreIndices choice }
    requires below { set < 2 ^ (16 * output) }
    ensures { OnOk result (all.new.items
        ≡ all.old.items ++ map (λ indices. set + shares_at output indices) (indices_meant choice.entry)) }
{
    match choice {
        Choice::Exactly(indices) => {
            all.push(set + shares_at(output, indices))?;
            Ok(())
        }
        Choice::AllButOne(sets) => push_each(all, set, output, sets),
    }
}

// Adds this set with the shares of an output that each of these sets of indices has.
fn push_each(all: &mut Vec<u32>, set: u32, output: u32, sets: &[Vec<u8>]) -> Result<(), OutOfMemory>
    requires output { output < most_outputs }
    requires sets { All (λ indices. IsRising 0 most_shares indices.items) sets.now }
    requires below { set < 2 ^ (16 * output) }
    ensures { OnOk result (all.new.items
        ≡ all.old.items ++ map (λ indices. set + shares_at output indices.items) sets.now) }
{
    for indices in sets {
        all.push(set + shares_at(output, indices))?;
    }
    Ok(())
}

// The shares of an output with these indices.
fn shares_at(output: u32, indices: &[u8]) -> u32
    requires output { output < most_outputs }
    requires indices { IsRising 0 most_shares indices.now }
    ensures shares { result ≡ shares_at output indices.now }
    ensures below { result + 2 ^ (16 * output) ≤ 2 ^ (16 * (output + 1)) }
{
    let mut shares = 0;
    for index in indices {
        shares += 1 << (16 * output + u32::from(*index));
    }
    shares
}

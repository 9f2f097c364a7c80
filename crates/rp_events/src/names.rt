//! The names of events.

ghost use Rattle.std.specs.Prelude.{◌≡◌, ◌++◌, ◌+◌, ◌*◌, ◌<◌, ◌≤◌, IfOk, OnOk};
ghost use Rattle.std.specs.Prelude.{All, flat_map, length, map, slice_index_or};
ghost use Rattle.gadget_tree.specs.Variables.{name_at};
ghost use Rattle.rp_events.specs.Events.{event_word, given_words, mode_digit, share_word};
ghost use Rattle.rp_events.specs.Choices.{IsChoice, given_of};

use crate::choices::Choice;
use crate::rp::Rp;
use gadget_tree::{Gadget, Name};
use mask_bytes::OutOfMemory;
use std::alloc::Global;
use wire_table::Which;

/// The name of an event: its first word, and the names of the given shares by output and index.
pub(crate) fn event_name(
    alloc: Global,
    gadget: &Gadget,
    rp: Rp,
    given: &[Choice<'_>],
    which: Which,
) -> Result<Name, OutOfMemory>
    requires outputs { length given.now ≤ length gadget.now.outputs }
    requires choices { All (IsChoice gadget.now.shares) given.now }
    ensures { IfOk result (λ name. name ≡ event_word rp (map given_of given.now) which
        ++ given_words gadget.now 0 (map given_of given.now)) }
{
    let mut name = Vec::new(alloc);
    extend_event_word(&mut name, rp, given, which)?;
    for (output, choice) in given.iter().enumerate() {
        extend_share_words(&mut name, gadget, output, choice.indices())?;
    }
    Ok(Name::new(alloc, &name)?)
}

// Adds the first word.
fn extend_event_word(
    name: &mut Vec<u8>,
    rp: Rp,
    given: &[Choice<'_>],
    which: Which,
) -> Result<(), OutOfMemory>
    ensures { OnOk result (name.new.items ≡ name.old.items ++ event_word rp (map given_of given.now) which) }
{
    match rp {
        Rp::Rpc => name.extend_from_slice(b"rpc")?,
        Rp::Rpe => {
            name.extend_from_slice(b"rpe")?;
            extend_digits(name, given)?;
            name.push(b'.')?;
            name.extend_from_slice(which.word().as_bytes())?;
        }
    }
    Ok(())
}

// Adds the digit of each mode.
fn extend_digits(name: &mut Vec<u8>, given: &[Choice<'_>]) -> Result<(), OutOfMemory>
    ensures { OnOk result (name.new.items
        ≡ name.old.items ++ flat_map (λ choice. mode_digit (given_of choice)) given.now) }
{
    for choice in given {
        name.push(choice.digit())?;
    }
    Ok(())
}

// Adds the names of the shares of an output with these indices, each after a space.
fn extend_share_words(
    name: &mut Vec<u8>,
    gadget: &Gadget,
    output: usize,
    indices: &[u8],
) -> Result<(), OutOfMemory>
    requires output { output < length gadget.now.outputs }
    requires indices { All (λ index. index < gadget.now.shares) indices.now }
    ensures { OnOk result (name.new.items ≡ name.old.items ++ flat_map (share_word gadget.now output) indices.now) }
{
    for index in indices {
        name.push(b' ')?;
        name.extend_from_slice(share_name(gadget, output, *index))?;
    }
    Ok(())
}

// The name of a share of an output.
fn share_name(gadget: &Gadget, output: usize, index: u8) -> &[u8]
    requires output { output < length gadget.now.outputs }
    requires index { index < gadget.now.shares }
    ensures { result.now ≡ name_at gadget.now.variables
        (slice_index_or gadget.now.output_shares (gadget.now.shares * output + index) 0) }
{
    let vars = gadget.vars();
    let var = gadget.out_var(output as u8, index);
    vars[usize::from(var)].name.bytes()
}

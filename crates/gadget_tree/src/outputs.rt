//! The output shares of a file.

ghost use Rattle.std.specs.Prelude.{◌≡◌, ◌++◌, length, map, IfOk, OnOk};
ghost use Rattle.std.specs.List.{range_with_len};
ghost use Rattle.gadget_text.specs.Errors.{Gives, Is, MemoryAside};
ghost use Rattle.gadget_headers.specs.Limits.{KeepsLimits};
ghost use Rattle.gadget_headers.specs.Seen.{preamble_in, AreHeadersWithin};
ghost use Rattle.gadget_tree.specs.File.{shares_of_output, check_shares, with_outputs, flat_gadget};
ghost use Rattle.gadget_tree.specs.Variables.{share_name, names_of, place_of};

use crate::name_list::share_name;
use crate::variables::Variables;
use gadget_headers::Headers;
use gadget_text::{FileError, text};
use std::alloc::Global;

// Adds the variables of the shares of one output.
fn push_shares(
    alloc: Global,
    variables: &Variables,
    numbers: &mut Vec<u16>,
    shares: u8,
    output: u8,
    stem: &[u8],
) -> Result<(), FileError>
    ensures says { Gives (λ _. tt) result
        (MemoryAside (Is (check_shares variables.now (shares_of_output shares output stem.now)))) }
    ensures numbers { OnOk result (numbers.new.items ≡ numbers.old.items
        ++ map (place_of (names_of variables.now)) (map (share_name stem.now) (range_with_len 0 shares))) }
{
    for index in 0..shares {
        let name = share_name(alloc, stem, index)?;
        let Some(number) = variables.number(name.bytes()) else {
            return Err(FileError::OutputMissing(output, index));
        };
        numbers.push(number)?;
    }
    Ok(())
}

/// The variables of the output shares, by output and then index; or the first share that is missing.
pub(crate) fn output_shares(
    alloc: Global,
    bytes: &[u8],
    headers: &Headers<'_>,
    variables: &Variables,
) -> Result<Vec<u16>, FileError>
    requires within { AreHeadersWithin (length bytes.now) headers.now }
    requires limits { KeepsLimits (preamble_in bytes.now headers.now) }
    ensures says { Gives (λ _. flat_gadget (preamble_in bytes.now headers.now) variables.now) result
        (MemoryAside (Is (with_outputs (preamble_in bytes.now headers.now) variables.now))) }
    ensures numbers { IfOk result (λ v.
        v.items ≡ (flat_gadget (preamble_in bytes.now headers.now) variables.now).output_shares) }
{
    let mut numbers = Vec::new(alloc);
    for (output, stem) in headers.outputs.words.iter().enumerate() {
        let stem = text(bytes, *stem);
        push_shares(
            alloc,
            variables,
            &mut numbers,
            headers.shares,
            output as u8,
            stem,
        )?;
    }
    Ok(numbers)
}

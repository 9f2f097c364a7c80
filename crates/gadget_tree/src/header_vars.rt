//! The variables of the headers.

ghost use Rattle.std.specs.Prelude.{All, ◌≡◌, ◌≤◌, ◌++◌, IfOk, OnOk, length, map};
ghost use Rattle.gadget_limits.specs.Limits.{most_shares, most_inputs, most_randoms};
ghost use Rattle.gadget_text.specs.Places.{LiesWithin, text_in};
ghost use Rattle.gadget_headers.specs.Limits.{KeepsLimits};
ghost use Rattle.gadget_headers.specs.Seen.{preamble_in, AreHeadersWithin};
ghost use Rattle.gadget_tree.specs.Variables.{shares_of_input, share_variables, random_variables, header_variables};
ghost use Rattle.gadget_tree.specs.Seen.{variables_of};

use crate::name::Name;
use crate::name_list::share_name;
use crate::var::{Var, VarKind};
use gadget_headers::{Headers, Stems};
use gadget_text::{Token, text};
use std::alloc::{AllocError, Global};

// Adds the variables of the shares of one input.
fn push_shares(
    alloc: Global,
    vars: &mut Vec<Var>,
    line: u32,
    shares: u8,
    input: u8,
    stem: &[u8],
) -> Result<(), AllocError>
    requires { shares ≤ most_shares }
    ensures { OnOk result (
        variables_of vars.new.items ≡ variables_of vars.old.items ++ shares_of_input line shares input stem.now) }
{
    for index in 0..shares {
        vars.push(Var {
            name: share_name(alloc, stem, index)?,
            kind: VarKind::Share { input, index },
            line,
        })?;
    }
    Ok(())
}

// The variables of the input shares.
fn share_vars(
    alloc: Global,
    bytes: &[u8],
    shares: u8,
    inputs: Stems<'_>,
) -> Result<Vec<Var>, AllocError>
    requires within { All (LiesWithin (length bytes.now)) inputs.words.now }
    requires few { length inputs.words.now ≤ most_inputs }
    requires few_shares { shares ≤ most_shares }
    ensures { IfOk result (λ v. variables_of v.items
        ≡ share_variables inputs.entry.line shares 0 (map (text_in bytes.now) inputs.entry.words.now)) }
{
    let mut vars = Vec::new(alloc);
    for (input, stem) in inputs.words.iter().enumerate() {
        push_shares(
            alloc,
            &mut vars,
            inputs.line,
            shares,
            input as u8,
            text(bytes, *stem),
        )?;
    }
    Ok(vars)
}

// Adds the variables of the randoms.
fn extend_randoms(
    alloc: Global,
    bytes: &[u8],
    vars: &mut Vec<Var>,
    line: u32,
    randoms: &[Token],
) -> Result<(), AllocError>
    requires within { All (LiesWithin (length bytes.now)) randoms.now }
    requires few { length randoms.now ≤ most_randoms }
    ensures { OnOk result (variables_of vars.new.items
        ≡ variables_of vars.old.items ++ random_variables line 0 (map (text_in bytes.now) randoms.now)) }
{
    for (place, random) in randoms.iter().enumerate() {
        vars.push(Var {
            name: Name::new(alloc, text(bytes, *random))?,
            kind: VarKind::Random(place as u8),
            line,
        })?;
    }
    Ok(())
}

/// The variables that the headers name: the input shares, and then the randoms.
pub(crate) fn header_vars(
    alloc: Global,
    bytes: &[u8],
    headers: &Headers<'_>,
) -> Result<Vec<Var>, AllocError>
    requires within { AreHeadersWithin (length bytes.now) headers.now }
    requires limits { KeepsLimits (preamble_in bytes.now headers.now) }
    ensures { IfOk result (λ v. variables_of v.items ≡ header_variables (preamble_in bytes.now headers.now)) }
{
    let mut vars = share_vars(alloc, bytes, headers.shares, headers.inputs)?;
    if let Some(randoms) = headers.randoms {
        extend_randoms(alloc, bytes, &mut vars, randoms.line, randoms.words)?;
    }
    Ok(vars)
}

//! The variables that the headers name.

ghost use Rattle.std.specs.Prelude.{◌≡◌, ◌≤◌, length, true, option_map, IfOk, IfSome};
ghost use Rattle.gadget_limits.specs.Limits.{most_variables};
ghost use Rattle.gadget_text.specs.Errors.{Gives, Is, MemoryAside};
ghost use Rattle.gadget_headers.specs.Limits.{KeepsLimits};
ghost use Rattle.gadget_headers.specs.Seen.{preamble_in, listed_in, AreWordsWithin, AreHeadersWithin};
ghost use Rattle.gadget_tree.specs.File.{distinct_shares, distinct_randoms, named_variables};
ghost use Rattle.gadget_tree.specs.Seen.{variables_of};
ghost use Rattle.gadget_tree.specs.Variables.{names_of, are_distinct, header_variables};

use crate::header_vars::header_vars;
use crate::name::Name;
use crate::name_list::{are_distinct, extend_names, extend_share_names};
use crate::var::Var;
use crate::variables::Variables;
use gadget_headers::{Headers, Stems};
use gadget_text::FileError;
use std::alloc::{AllocError, Global};

// These names and those of the shares of each stem, where all differ.
fn with_shares(
    alloc: Global,
    bytes: &[u8],
    mut names: Vec<Name>,
    shares: u8,
    stems: Stems<'_>,
) -> Result<Vec<Name>, FileError>
    requires { AreWordsWithin (length bytes.now) stems }
    ensures { Gives (λ v. v.items) result
        (MemoryAside (Is (distinct_shares names.items shares (listed_in bytes.now stems.entry)))) }
{
    extend_share_names(alloc, bytes, &mut names, shares, stems.words)?;
    if !are_distinct(&names) {
        return Err(FileError::NameTwice(stems.line));
    }
    Ok(names)
}

// These names and those of the randoms, where all differ.
fn with_randoms(
    alloc: Global,
    bytes: &[u8],
    mut names: Vec<Name>,
    randoms: Option<Stems<'_>>,
) -> Result<Vec<Name>, FileError>
    requires { IfSome randoms (AreWordsWithin (length bytes.now)) }
    ensures { Gives (λ v. v.items) result
        (MemoryAside (Is (distinct_randoms names.items (option_map (listed_in bytes.now) randoms.entry)))) }
{
    let Some(randoms) = randoms else {
        return Ok(names);
    };
    extend_names(alloc, bytes, &mut names, randoms.words)?;
    if !are_distinct(&names) {
        return Err(FileError::NameTwice(randoms.line));
    }
    Ok(names)
}

// Refuses headers that have a name twice.
fn check_names(alloc: Global, bytes: &[u8], headers: &Headers<'_>) -> Result<(), FileError>
    requires { AreHeadersWithin (length bytes.now) headers.now }
    ensures { Gives (λ _. header_variables (preamble_in bytes.now headers.now)) result
        (MemoryAside (Is (named_variables (preamble_in bytes.now headers.now)))) }
{
    let inputs = with_shares(
        alloc,
        bytes,
        Vec::new(alloc),
        headers.shares,
        headers.inputs,
    )?;
    let randoms = with_randoms(alloc, bytes, inputs, headers.randoms)?;
    with_shares(alloc, bytes, randoms, headers.shares, headers.outputs)?;
    Ok(())
}

// These variables, found by their names.
fn indexed(alloc: Global, vars: Vec<Var>) -> Result<Variables, AllocError>
    requires distinct { are_distinct (names_of (variables_of vars.items)) ≡ true }
    requires few { length vars.items ≤ most_variables }
    ensures { IfOk result (λ v. v ≡ variables_of vars.items) }
{
    let mut variables = Variables::new(alloc);
    for var in vars {
        variables = variables.with(var)?;
    }
    Ok(variables)
}

/// The variables that the headers name, or the first header that has a name twice.
pub(crate) fn named_variables(
    alloc: Global,
    bytes: &[u8],
    headers: &Headers<'_>,
) -> Result<Variables, FileError>
    requires within { AreHeadersWithin (length bytes.now) headers.now }
    requires limits { KeepsLimits (preamble_in bytes.now headers.now) }
    ensures { Gives (λ v. v) result (MemoryAside (Is (named_variables (preamble_in bytes.now headers.now)))) }
{
    check_names(alloc, bytes, headers)?;
    let vars = header_vars(alloc, bytes, headers)?;
    Ok(indexed(alloc, vars)?)
}

//! Reading a gadget file.

ghost use Rattle.std.specs.Prelude.{◌≡◌, ◌≤◌, ℕ, List, All, length, map, option_map, IfOk, IfSome};
ghost use Rattle.gadget_limits.specs.Limits.{most_randoms};
ghost use Rattle.gadget_text.specs.Errors.{Gives, Is, MemoryAside};
ghost use Rattle.gadget_text.specs.Limits.{most_file_bytes};
ghost use Rattle.gadget_text.specs.Places.{LiesWithin, text_in, lines_in};
ghost use Rattle.gadget_headers.specs.Limits.{KeepsLimits, stems_of};
ghost use Rattle.gadget_headers.specs.Seen.{preamble_in, listed_in, AreHeadersWithin};
ghost use Rattle.gadget_tree.specs.File.{file_lines, FileSays, flat_gadget};
ghost use Rattle.gadget_tree.specs.Gadgets.{IsGadget};

use crate::gadget::{Gadget, Parts};
use crate::line::with_lines;
use crate::name::Name;
use crate::name_list::extend_names;
use crate::outputs::output_shares;
use crate::start::named_variables;
use crate::variables::Variables;
use gadget_headers::{Headers, Stems, read_headers};
use gadget_text::{FileError, Token, tokens};
use std::alloc::{AllocError, Global};

// The tokens of a file.
fn file_tokens(alloc: Global, bytes: &[u8]) -> Result<Vec<Token>, FileError>
    requires { length bytes.now ≤ most_file_bytes }
    ensures says { Gives (λ v. lines_in bytes.now v.items) result (MemoryAside (Is (file_lines bytes.now))) }
    ensures within { IfOk result (λ v. All (LiesWithin (length bytes.now)) v.items) }
{
    Ok(tokens(alloc, bytes)?)
}

// The words as names.
fn names(alloc: Global, bytes: &[u8], words: &[Token]) -> Result<Vec<Name>, AllocError>
    requires { All (LiesWithin (length bytes.now)) words.now }
    ensures { IfOk result (λ v. v.items ≡ map (text_in bytes.now) words.now) }
{
    let mut names = Vec::new(alloc);
    extend_names(alloc, bytes, &mut names, words)?;
    Ok(names)
}

// How many randoms a header lists; none where it is missing.
fn random_count(randoms: Option<Stems<'_>>) -> u16
    requires { IfSome randoms (λ r. length r.words.now ≤ most_randoms) }
    ensures { (bytes : List ℕ) → result ≡ length (stems_of (option_map (listed_in bytes) randoms.entry)) }
{
    match randoms {
        None => 0,
        Some(randoms) => randoms.words.len() as u16,
    }
}

// The gadget that the headers, the variables and the numbers of the output shares make.
fn flat_gadget(
    alloc: Global,
    bytes: &[u8],
    headers: &Headers<'_>,
    output_shares: Vec<u16>,
    variables: Variables,
) -> Result<Gadget, AllocError>
    requires within { AreHeadersWithin (length bytes.now) headers.now }
    requires numbers { output_shares.items ≡ (flat_gadget (preamble_in bytes.now headers.now) variables).output_shares }
    requires gadget { IsGadget (flat_gadget (preamble_in bytes.now headers.now) variables) }
    ensures { IfOk result (λ g. g ≡ flat_gadget (preamble_in bytes.now headers.now) variables) }
{
    Ok(Gadget::new(Parts {
        shares: headers.shares,
        inputs: names(alloc, bytes, headers.inputs.words)?,
        randoms: random_count(headers.randoms),
        outputs: names(alloc, bytes, headers.outputs.words)?,
        output_shares,
        vars: variables.into_vars(),
    }))
}

/// The gadget that a file says, or its first offence. Time is linear in the file's length and that of the gadget's
/// names, times the logarithm of how many variables there are; the names of the headers, at most 224, are held each
/// against each.
pub fn read_gadget(alloc: Global, bytes: &[u8]) -> Result<Gadget, FileError>
    requires { length bytes.now ≤ most_file_bytes }
    ensures { Gives (λ g. g) result (MemoryAside (FileSays bytes.now)) }
{
    let tokens = file_tokens(alloc, bytes)?;
    let headers = read_headers(bytes, &tokens)?;
    let start = named_variables(alloc, bytes, &headers)?;
    let variables = with_lines(alloc, bytes, headers.rest, start)?;
    let shares = output_shares(alloc, bytes, &headers, &variables)?;
    Ok(flat_gadget(alloc, bytes, &headers, shares, variables)?)
}

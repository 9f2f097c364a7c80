//! The names that a line makes: that on its left side, and the inner names of its other operations.

ghost use Rattle.std.specs.Prelude.{◌≡◌, ◌≤◌, IfOk};
ghost use Rattle.std.specs.List.{list_any};
ghost use Rattle.gadget_tree.specs.Numerals.{continues_below};
ghost use Rattle.gadget_tree.specs.Variables.{names_of, is_among};
ghost use Rattle.gadget_tree.specs.Operations.{inner_name};
ghost use Rattle.gadget_tree.specs.Made.{inner_names, names_made, name_made};
ghost use Rattle.gadget_tree.specs.Seen.{variables_of};

use crate::name::Name;
use crate::var::Var;
use crate::variables::Variables;
use std::alloc::{AllocError, Global};

// Whether digits are the decimal text of a number above 0 and below a bound.
fn is_number_below(bound: usize, digits: &[u8]) -> bool
    ensures { result ≡ continues_below bound 0 digits.now }
{
    let mut number: usize = 0;
    for digit in digits {
        if !digit.is_ascii_digit() {
            return false;
        }
        number = number
            .saturating_mul(10)
            .saturating_add((*digit - b'0') as usize);
        if number == 0 || number >= bound {
            return false;
        }
    }
    number > 0
}

// Whether a word is an inner name of a line that makes so many variables and assigns to this name.
fn is_inner_name(name: &[u8], count: usize, word: &[u8]) -> bool
    ensures { result ≡ is_among (inner_names name.now count) word.now }
{
    let Some(rest) = word.strip_prefix(name) else {
        return false;
    };
    let Some((dot, digits)) = rest.split_first() else {
        return false;
    };
    *dot == b'.' && is_number_below(count, digits)
}

// Whether some variable has an inner name of such a line.
fn has_inner_name(vars: &[Var], name: &[u8], count: usize) -> bool
    ensures { result ≡ list_any (is_among (inner_names name.now count)) (names_of (variables_of vars.now)) }
{
    for var in vars {
        if is_inner_name(name, count, var.name.bytes()) {
            return true;
        }
    }
    false
}

/// Whether a name stands for something already that a line makes which assigns to this name and makes so many
/// variables. No name is made to find out: time is linear in the length of the name, for each variable there is.
pub(crate) fn is_some_taken(variables: &Variables, name: &[u8], count: usize) -> bool
    ensures { result ≡ list_any (is_among (names_of variables.now)) (names_made name.now count) }
{
    has_inner_name(variables.as_slice(), name, count) || variables.has(name)
}

// The k-th inner name of a line.
fn inner_name(alloc: Global, name: &[u8], k: usize) -> Result<Name, AllocError>
    ensures { IfOk result (λ n. n ≡ inner_name name.now k) }
{
    let number = format!(in alloc; ".{k}")?;
    Name::joined(alloc, name, number.as_bytes())
}

/// The name of the k-th variable, counted from 1, that a line makes which makes so many.
pub(crate) fn name_made(
    alloc: Global,
    name: &[u8],
    count: usize,
    k: usize,
) -> Result<Name, AllocError>
    ensures { IfOk result (λ n. n ≡ name_made name.now count k) }
{
    if k == count {
        Name::new(alloc, name)
    } else {
        inner_name(alloc, name, k)
    }
}

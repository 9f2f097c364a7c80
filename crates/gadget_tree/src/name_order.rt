//! The numbers of variables in the order of their names, in which a name is found by halving.

ghost use Rattle.std.specs.Prelude.{◌≡◌, ◌<◌, All, length, is_some, IfSome};
ghost use Rattle.gadget_tree.specs.NameOrder.{compare_names, AreByName, IsRank, AreAllInOrder};
ghost use Rattle.gadget_tree.specs.Seen.{variables_of};
ghost use Rattle.gadget_tree.specs.Variables.{names_of, name_at, is_among, place_of};

use crate::var::Var;
use std::cmp::Ordering;

/// The name of the variable with a number.
pub(crate) fn name_of(vars: &[Var], number: u16) -> &[u8]
    requires { number < length vars.now }
    ensures { result.now ≡ name_at (variables_of vars.now) number }
{
    vars[usize::from(number)].name.bytes()
}

// How two names compare, by their last bytes first.
fn compare(name: &[u8], other: &[u8]) -> Ordering
    ensures { result ≡ compare_names name.now other.now }
{
    name.iter().rev().cmp(other.iter().rev())
}

/// How many of these numbers, which stand in the order of their names, are of names that come before this one. They are
/// halved again and again, and each comparison reads as many bytes as the two names share at their ends.
pub(crate) fn rank(vars: &[Var], numbers: &[u16], name: &[u8]) -> usize
    requires below { All (λ k. k < length vars.now) numbers.now }
    requires in_order { AreByName (variables_of vars.now) numbers.now }
    ensures { IsRank (variables_of vars.now) numbers.now name.now result }
{
    let mut low = 0;
    let mut high = numbers.len();
    while low < high {
        let middle = low + (high - low) / 2;
        if compare(name_of(vars, numbers[middle]), name).is_lt() {
            low = middle + 1;
        } else {
            high = middle;
        }
    }
    low
}

/// The number of the variable with a name, where these are the numbers of all.
pub(crate) fn number_of(vars: &[Var], numbers: &[u16], name: &[u8]) -> Option<u16>
    requires { AreAllInOrder (variables_of vars.now) numbers.now }
    ensures among { is_some result ≡ is_among (names_of (variables_of vars.now)) name.now }
    ensures place { IfSome result (λ k. k ≡ place_of (names_of (variables_of vars.now)) name.now) }
    ensures below { IfSome result (λ k. k < length vars.now) }
{
    let place = rank(vars, numbers, name);
    if place == numbers.len() {
        return None;
    }
    let number = numbers[place];
    if !vars[usize::from(number)].name.is(name) {
        return None;
    }
    Some(number)
}

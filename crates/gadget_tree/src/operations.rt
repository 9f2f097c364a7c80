//! The steps of a line: how many operations they have, and whether their names are known.

ghost use Rattle.std.specs.Prelude.{◌≡◌, ℕ, List, All, length};
ghost use Rattle.std.specs.List.{list_all};
ghost use Rattle.gadget_text.specs.Places.{LiesWithin, text_in};
ghost use Rattle.gadget_grammar.specs.Seen.{IsStepWithin, step_in, steps_in};
ghost use Rattle.gadget_tree.specs.Made.{operation_count, count_made, is_known};
ghost use Rattle.gadget_tree.specs.Variables.{names_of};

use crate::variables::Variables;
use gadget_grammar::Step;
use gadget_text::text;

// How many of the steps are operations.
fn operation_count(steps: &[Step]) -> usize
    ensures { (bytes : List ℕ) → result ≡ operation_count (steps_in bytes steps.now) }
{
    let mut count = 0;
    for step in steps {
        match step {
            Step::Name(_) => {}
            Step::Sum | Step::Product => count += 1,
        }
    }
    count
}

/// How many variables a line with these steps makes: where there is no operation, it makes a copy.
pub(crate) fn count_made(steps: &[Step]) -> usize
    ensures { (bytes : List ℕ) → result ≡ count_made (steps_in bytes steps.now) }
{
    operation_count(steps).max(1)
}

// Whether the name of a step, if it has one, stands for something.
fn is_known(bytes: &[u8], variables: &Variables, step: Step) -> bool
    requires { IsStepWithin (length bytes.now) step }
    ensures { result ≡ is_known (names_of variables.now) (step_in bytes.now step) }
{
    match step {
        Step::Name(token) => variables.has(text(bytes, token)),
        Step::Sum | Step::Product => true,
    }
}

/// Whether each name in the steps stands for something.
pub(crate) fn are_known(bytes: &[u8], variables: &Variables, steps: &[Step]) -> bool
    requires { All (IsStepWithin (length bytes.now)) steps.now }
    ensures { result ≡ list_all (is_known (names_of variables.now)) (steps_in bytes.now steps.now) }
{
    for step in steps {
        if !is_known(bytes, variables, *step) {
            return false;
        }
    }
    true
}

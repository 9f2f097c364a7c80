//! The kinds of the variables that a line makes, found with a stack.

ghost use Rattle.std.specs.Prelude.{◌≡◌, ◌≤◌, ◌<◌, ◌+◌, ◌++◌, ◌∷◌, [], All, IfOk, OnOk, length, map};
ghost use Rattle.gadget_grammar.specs.Grammar.{Tree};
ghost use Rattle.gadget_grammar.specs.Steps.{postfix};
ghost use Rattle.gadget_limits.specs.Limits.{most_variables};
ghost use Rattle.gadget_grammar.specs.Seen.{IsStepWithin, step_in, steps_in};
ghost use Rattle.gadget_tree.specs.Made.{operand_count, count_made, with_node, after_step, start, finished, nodes_made, making_of};
ghost use Rattle.gadget_tree.specs.Seen.{node_of};
ghost use Rattle.gadget_tree.specs.Variables.{names_of, place_of};

use crate::var::VarKind;
use crate::variables::Variables;
use gadget_grammar::Step;
use gadget_text::text;
use std::alloc::{AllocError, Global};

/// How far the operations of a line are made.
#[derive(Drop)]
struct Making {
    /// The numbers of the variables whose values wait, the last at the end.
    stack: Vec<u16>,
    kinds: Vec<VarKind>,
}

// Takes the last two numbers off a stack, in the order in which they stand.
fn pop_two(stack: &mut Vec<u16>) -> (u16, u16)
    requires { 2 ≤ length stack.old.items }
    ensures { stack.old.items ≡ stack.new.items ++ result.0 ∷ result.1 ∷ [] }
{
    let right = stack.pop().unwrap();
    let left = stack.pop().unwrap();
    (left, right)
}

impl Making {
    // Nothing is made.
    fn new(alloc: Global) -> Making
        ensures { making_of result ≡ start }
    {
        Making {
            stack: Vec::new(alloc),
            kinds: Vec::new(alloc),
        }
    }

    // Makes one more variable, which waits, where the first one made has the number `base`.
    fn put(&mut self, base: usize, kind: VarKind) -> Result<(), AllocError>
        requires { base + length self.old.kinds.items ≤ most_variables }
        ensures { OnOk result (making_of self.new
            ≡ with_node base (making_of self.old).stack (making_of self.old).nodes (node_of kind)) }
    {
        let number = (base + self.kinds.len()) as u16;
        self.kinds.push(kind)?;
        self.stack.push(number)?;
        Ok(())
    }

    // Goes one step on.
    fn advance(&mut self, bytes: &[u8], variables: &Variables, step: Step) -> Result<(), AllocError>
        requires within { IsStepWithin (length bytes.now) step }
        requires room { length variables.now + length self.old.kinds.items ≤ most_variables }
        requires operands { operand_count (step_in bytes.now step) ≤ length self.old.stack.items }
        ensures { OnOk result (making_of self.new ≡ after_step
            (place_of (names_of variables.now)) (length variables.now) (making_of self.old) (step_in bytes.now step)) }
    {
        let base = variables.len();
        match step {
            Step::Name(token) => {
                self.stack.push(variables.place(text(bytes, token)))?;
                Ok(())
            }
            Step::Sum => {
                let (left, right) = pop_two(&mut self.stack);
                self.put(base, VarKind::Sum(left, right))
            }
            Step::Product => {
                let (left, right) = pop_two(&mut self.stack);
                self.put(base, VarKind::Product(left, right))
            }
        }
    }

    // The kinds, or else a copy of the variable that waits.
    fn finish(self) -> Result<Vec<VarKind>, AllocError>
        requires { 0 < length self.stack.items }
        ensures { IfOk result (λ v. map node_of v.items ≡ finished (making_of self)) }
    {
        let Making {
            mut stack,
            mut kinds,
        } = self;
        if kinds.is_empty() {
            kinds.push(VarKind::Copy(stack.pop().unwrap()))?;
        }
        Ok(kinds)
    }
}

/// The kinds of the variables that a line with the steps of a tree makes, in post-order, where these are the variables
/// before it.
pub(crate) fn kinds_made(
    alloc: Global,
    bytes: &[u8],
    variables: &Variables,
    steps: &[Step],
) -> Result<Vec<VarKind>, AllocError>
    requires within { All (IsStepWithin (length bytes.now)) steps.now }
    requires tree { (tree : Tree) × (steps_in bytes.now steps.now ≡ postfix tree) }
    requires room { length variables.now + count_made (steps_in bytes.now steps.now) ≤ most_variables }
    ensures { IfOk result (λ v. map node_of v.items
        ≡ nodes_made (place_of (names_of variables.now)) (length variables.now) (steps_in bytes.now steps.now)) }
{
    let mut making = Making::new(alloc);
    for step in steps {
        making.advance(bytes, variables, *step)?;
    }
    making.finish()
}

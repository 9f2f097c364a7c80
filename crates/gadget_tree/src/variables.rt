//! The variables so far, found by their names.

ghost use Rattle.std.specs.Prelude.{◌≡◌, ◌≤◌, ◌<◌, ◌++◌, ◌∷◌, [], false, is_some, length, IfOk, IfSome};
ghost use Rattle.gadget_limits.specs.Limits.{most_variables};
ghost use Rattle.gadget_tree.specs.Seen.{variable_of, variables_of};
ghost use Rattle.gadget_tree.specs.Variables.{names_of, is_among, place_of};

use crate::name_order::{number_of, rank};
use crate::var::Var;
use std::alloc::{AllocError, Global};
use std::marker::Model;

/// The variables so far, at most `MOST_VARIABLES`. Contracts see the model's list of them.
#[derive(Drop)]
pub(crate) struct Variables {
    vars: Vec<Var>,
    // Their numbers, in the order of their names.
    numbers: Vec<u16>,
}

impl Model for Variables {
    ghost use Rattle.std.specs.Prelude.{List, ◌≤◌, length};
    ghost use Rattle.gadget_model.specs.Circuit.{Variable};

    ghost Value = { List Variable };

    ghost use Rattle.gadget_tree.specs.Seen.{variables_of};
    ghost use Rattle.gadget_limits.specs.Limits.{most_variables};
    ghost use Rattle.gadget_tree.specs.NameOrder.{AreAllInOrder};

    ghost view = { λ s. variables_of s.vars.items };

    ghost invariant = { λ s.
        AreAllInOrder (variables_of s.vars.items) s.numbers.items × (length s.vars.items ≤ most_variables) };
}

impl Variables {
    /// There are none.
    pub(crate) fn new(alloc: Global) -> Variables
        ensures { result ≡ [] }
    {
        Variables {
            vars: Vec::new(alloc),
            numbers: Vec::new(alloc),
        }
    }

    /// How many there are.
    pub(crate) fn len(&self) -> usize
        ensures len { result ≡ length self.now }
        ensures few { result ≤ most_variables }
    {
        self.vars.len()
    }

    /// The number of the variable with a name. Time is logarithmic in how many there are, times the bytes at which
    /// names end alike.
    pub(crate) fn number(&self, name: &[u8]) -> Option<u16>
        ensures among { is_some result ≡ is_among (names_of self.now) name.now }
        ensures place { IfSome result (λ k. k ≡ place_of (names_of self.now) name.now) }
        ensures below { IfSome result (λ k. k < length self.now) }
    {
        number_of(&self.vars, &self.numbers, name)
    }

    /// Whether a name stands for something already.
    pub(crate) fn has(&self, name: &[u8]) -> bool
        ensures { result ≡ is_among (names_of self.now) name.now }
    {
        self.number(name).is_some()
    }

    /// The number of the variable with a name, or how many there are where none has it.
    pub(crate) fn place(&self, name: &[u8]) -> u16
        ensures { result ≡ place_of (names_of self.now) name.now }
    {
        self.number(name).unwrap_or(self.len() as u16)
    }

    /// These variables, and after them one more.
    pub(crate) fn with(self, var: Var) -> Result<Variables, AllocError>
        requires fresh { is_among (names_of self) var.name ≡ false }
        requires room { length self < most_variables }
        ensures { IfOk result (λ s. s ≡ self ++ variable_of var ∷ []) }
    {
        let Variables {
            mut vars,
            mut numbers,
        } = self;
        let place = rank(&vars, &numbers, var.name.bytes());
        numbers.insert(place, vars.len() as u16)?;
        vars.push(var)?;
        Ok(Variables { vars, numbers })
    }

    /// The variables, in order.
    pub(crate) fn as_slice(&self) -> &[Var]
        ensures { variables_of result.now ≡ self.now }
    {
        &self.vars
    }

    /// The variables, in order.
    pub(crate) fn into_vars(self) -> Vec<Var>
        ensures { variables_of result.items ≡ self }
    {
        self.vars
    }
}

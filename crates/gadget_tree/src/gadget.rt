//! Gadgets: masked circuits, written flat.

ghost use Rattle.std.specs.Prelude.{◌≤◌, ◌≡◌, ℕ, ◌+◌, ◌*◌, ◌/◌, ◌%◌, ◌<◌, map, length, slice_index, All, Option};
ghost use Rattle.gadget_limits.specs.Limits.{most_shares, most_inputs, most_outputs};
ghost use Rattle.gadget_model.specs.Circuit.{Circuit};
ghost use Rattle.gadget_tree.specs.Seen.{variables_of};
ghost use Rattle.gadget_tree.specs.Gadgets.{IsGadget, HasShareOf, IsOutOf};
ghost use Rattle.gadget_tree.specs.Inside.{circuit_of_parts};

use crate::name::Name;
use crate::var::Var;
use std::marker::Model;

/// A gadget. Contracts see it as the model's plain data.
#[derive(Drop)]
pub struct Gadget {
    shares: u8,
    inputs: Vec<Name>,
    randoms: u16,
    outputs: Vec<Name>,
    output_shares: Vec<u16>,
    vars: Vec<Var>,
}

impl Model for Gadget {
    ghost use Rattle.gadget_model.specs.Circuit.{Circuit};

    ghost Value = { Circuit };

    ghost use Rattle.gadget_tree.specs.Inside.{circuit_of};
    ghost use Rattle.gadget_tree.specs.Gadgets.{IsGadget};

    ghost view = { circuit_of };

    ghost invariant = { λ g. IsGadget (circuit_of g) };
}

/// The parts of a gadget.
#[derive(Drop)]
pub(crate) struct Parts {
    pub shares: u8,
    pub inputs: Vec<Name>,
    pub randoms: u16,
    pub outputs: Vec<Name>,
    pub output_shares: Vec<u16>,
    pub vars: Vec<Var>,
}

impl Gadget {
    /// A gadget with these parts.
    pub(crate) fn new(parts: Parts) -> Gadget
        requires { IsGadget (circuit_of_parts parts) }
        ensures { result ≡ circuit_of_parts parts }
    {
        let Parts {
            shares,
            inputs,
            randoms,
            outputs,
            output_shares,
            vars,
        } = parts;
        Gadget {
            shares,
            inputs,
            randoms,
            outputs,
            output_shares,
            vars,
        }
    }

    /// Into how many shares each input and output is split.
    pub fn shares(&self) -> u8
        ensures shares { result ≡ self.now.shares }
        ensures some { 1 ≤ result }
        ensures few { result ≤ most_shares }
    {
        self.shares
    }

    /// How many random bits the gadget uses.
    pub fn randoms(&self) -> u16
        ensures { result ≡ self.now.randoms }
    {
        self.randoms
    }

    /// The names of the inputs.
    pub fn inputs(&self) -> &[Name]
        ensures inputs { result.now ≡ self.now.inputs }
        ensures few { length result.now ≤ most_inputs }
    {
        &self.inputs
    }

    /// The names of the outputs.
    pub fn outputs(&self) -> &[Name]
        ensures outputs { result.now ≡ self.now.outputs }
        ensures few { length result.now ≤ most_outputs }
    {
        &self.outputs
    }

    /// The variables: the input shares by input and index, the randoms, and then the operations, in an order of
    /// evaluation.
    pub fn vars(&self) -> &[Var]
        ensures variables { variables_of result.now ≡ self.now.variables }
        ensures gadget { IsGadget self.now }
        ensures shares { All (HasShareOf self.now) result.now }
    {
        &self.vars
    }

    /// The variable of a share of an output, both counted from 0.
    pub fn out_var(&self, output: u8, index: u8) -> u16
        requires output { output < length self.now.outputs }
        requires index { index < self.now.shares }
        ensures { result ≡ slice_index self.now.output_shares (self.now.shares * output + index) }
    {
        self.output_shares[self.shares as usize * output as usize + index as usize]
    }

    /// Which share of which output a variable is, as the output and the index.
    pub fn out_of(&self, var: u16) -> Option<(u8, u8)>
        ensures { IsOutOf self.now var result }
    {
        let place = self.output_shares.iter().position(|share| *share == var)?;
        let shares = self.shares as usize;
        Some(((place / shares) as u8, (place % shares) as u8))
    }
}

/// A variable of a gadget is one share of one output at most, so that `out_of` has one answer.
pub fn one_output_law()
    ensures { (g : Circuit) (var : ℕ) (a b : Option (ℕ × ℕ)) → IsGadget g → IsOutOf g var a → IsOutOf g var b → a ≡ b }
{}

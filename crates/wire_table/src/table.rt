//! The table of a gadget, and its readers.

ghost use Rattle.std.specs.Prelude.{◌≡◌, ◌<◌, length, [], slice_index_or, IfOk, OnOk, IfErr};
ghost use Rattle.gadget_model.specs.Classes.{IsInClass};
ghost use Rattle.wire_table.specs.Tables.{IsTable, StandsFor};
ghost use Rattle.wire_table.specs.Refusals.{Refuses};

use crate::polynomials::polynomials;
use crate::products::products;
use crate::table_rows::{random_rows, share_rows};
use crate::terms::all_terms;
use crate::use_counts::uses;
use crate::wire_error::WireError;
use gadget_tree::Gadget;
use std::alloc::Global;
use std::marker::Model;

/// The table of a gadget: each variable as a sum of randoms and of products of input shares.
/// Contracts see it as the model's plain data.
#[derive(Drop)]
pub struct WireTable {
    random_rows: Vec<u128>,
    share_rows: Vec<Vec<u64>>,
    products: Vec<u64>,
    uses: Vec<u32>,
}

impl Model for WireTable {
    ghost use Rattle.wire_table.specs.Tables.{Table};

    ghost Value = { Table };

    ghost use Rattle.wire_table.specs.Inside.{table_of};
    ghost use Rattle.wire_table.specs.Tables.{IsTable};

    ghost view = { table_of };

    ghost invariant = { λ t. IsTable (table_of t) };
}

impl WireTable {
    /// The table of a gadget in the class, or its first variable that is outside. The polynomials of all variables are
    /// held at once, at most 256 monomials each.
    pub fn make(alloc: Global, gadget: &Gadget) -> Result<WireTable, WireError>
        ensures stands { IfOk result (λ table. StandsFor table gadget.now) }
        ensures in_class { OnOk result (IsInClass gadget.now) }
        ensures refused { IfErr result (Refuses gadget.now) }
    {
        let vars = gadget.vars();
        let polynomials = polynomials(alloc, gadget)?;
        let terms = all_terms(alloc, gadget, &polynomials)?;
        let products = products(alloc, &terms)?;
        let random_rows = random_rows(alloc, &terms)?;
        let share_rows = share_rows(alloc, &products, &terms)?;
        let uses = uses(alloc, vars)?;
        Ok(WireTable {
            random_rows,
            share_rows,
            products,
            uses,
        })
    }

    /// How many variables the gadget has.
    pub fn vars(&self) -> u16
        ensures vars { result ≡ length self.now.random_rows }
        ensures table { IsTable self.now }
    {
        self.random_rows.len() as u16
    }

    /// How many monomials are numbered: products of input shares.
    pub fn monomials(&self) -> u16
        ensures { result ≡ length self.now.products }
    {
        self.products.len() as u16
    }

    /// The randoms of a variable: bit k for random k.
    pub fn random_row(&self, var: u16) -> u128
        requires { var < length self.now.random_rows }
        ensures { result ≡ slice_index_or self.now.random_rows var 0 }
    {
        self.random_rows[usize::from(var)]
    }

    /// The products of input shares of a variable: bit j % 64 of word j / 64 for the monomial with number j.
    pub fn share_row(&self, var: u16) -> &[u64]
        requires { var < length self.now.random_rows }
        ensures { result.now ≡ slice_index_or self.now.share_rows var [] }
    {
        &self.share_rows[usize::from(var)]
    }

    /// The shares of a monomial: bit `16 * input + index` for that share of that input.
    pub fn shares_of(&self, monomial: u16) -> u64
        requires { monomial < length self.now.products }
        ensures { result ≡ slice_index_or self.now.products monomial 0 }
    {
        self.products[usize::from(monomial)]
    }

    /// How many operand places name a variable.
    pub fn uses(&self, var: u16) -> u32
        requires { var < length self.now.random_rows }
        ensures { result ≡ slice_index_or self.now.uses var 0 }
    {
        self.uses[usize::from(var)]
    }
}

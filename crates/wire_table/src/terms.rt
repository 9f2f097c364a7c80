//! Polynomials as randoms and products of input shares.

ghost use Rattle.std.specs.Prelude.{◌≡◌, ◌<◌, length, bit_or, fold, IfOk};
ghost use Rattle.std.specs.List.{All, AllZip};
ghost use Rattle.wire_table.specs.Terms.{share_bit, share_set, HasSmallShare, IsRandomOf, IsFitMonomial, IsTermOf, IsFitPolynomial, AreTermsOf, node_at};
ghost use Rattle.anf.specs.Polynomials.{set_of};
ghost use Rattle.gadget_tree.specs.Seen.{node_of};
ghost use Rattle.gadget_tree.specs.Gadgets.{IsGadget};

use anf::Poly;
use gadget_tree::{Gadget, Var, VarKind};
use std::alloc::{AllocError, Global};

/// A monomial: a random, or a product of input shares, with bit `16 * input + index` for that share of that input.
#[derive(Clone, Copy)]
pub(crate) enum Term {
    Random(u8),
    Product(u64),
}

/// A polynomial as the sum of some randoms, with bit k for random k, and of some products of input shares.
#[derive(Drop)]
pub(crate) struct Terms {
    pub randoms: u128,
    pub products: Vec<u64>,
}

// The set of the input share that a variable is, which is empty for any other variable.
fn share_bit(kind: VarKind) -> u64
    requires { HasSmallShare (node_of kind) }
    ensures { result ≡ share_bit (node_of kind) }
{
    match kind {
        VarKind::Share { input, index } => 1 << (16 * u32::from(input) + u32::from(index)),
        _ => 0,
    }
}

// The set of the input share that the variable with a number is.
fn share_at(vars: &[Var], v: u16) -> u64
    requires small { All (λ var. HasSmallShare (node_of var.kind)) vars.now }
    requires within { v < length vars.now }
    ensures { result ≡ share_bit (node_at vars.now v) }
{
    share_bit(vars[usize::from(v)].kind)
}

// The input shares among some variables.
fn share_set(vars: &[Var], monomial: &[u16]) -> u64
    requires small { All (λ var. HasSmallShare (node_of var.kind)) vars.now }
    requires within { All (λ v. v < length vars.now) monomial.now }
    ensures { result ≡ share_set vars.now monomial.now }
{
    monomial.iter().fold(0, |set, v| set | share_at(vars, *v))
}

// The random that a monomial is.
fn random(vars: &[Var], monomial: &[u16]) -> Option<u8>
    requires { All (λ v. v < length vars.now) monomial.now }
    ensures { IsRandomOf vars.now monomial.now result }
{
    let [v] = monomial else {
        return None;
    };
    match vars[usize::from(*v)].kind {
        VarKind::Random(k) => Some(k),
        _ => None,
    }
}

// The term of a monomial.
fn term_of(gadget: &Gadget, monomial: &[u16]) -> Term
    requires { IsFitMonomial gadget.now monomial.now }
    ensures term { IsTermOf gadget.now (set_of monomial.now) result }
    ensures gadget { IsGadget gadget.now }
{
    let vars = gadget.vars();
    match random(vars, monomial) {
        Some(k) => Term::Random(k),
        None => Term::Product(share_set(vars, monomial)),
    }
}

// The terms of a polynomial.
fn terms_of(alloc: Global, gadget: &Gadget, polynomial: &Poly) -> Result<Terms, AllocError>
    requires { IsFitPolynomial gadget.now polynomial.now }
    ensures { IfOk result (AreTermsOf gadget.now polynomial.now) }
{
    let mut randoms: u128 = 0;
    let mut products = Vec::new(alloc);
    for monomial in polynomial.monomials() {
        match term_of(gadget, monomial.as_slice()) {
            Term::Random(k) => randoms ^= 1 << k,
            Term::Product(set) => products.push(set)?,
        }
    }
    Ok(Terms { randoms, products })
}

/// The terms of each polynomial.
pub(crate) fn all_terms(
    alloc: Global,
    gadget: &Gadget,
    polynomials: &[Poly],
) -> Result<Vec<Terms>, AllocError>
    requires { All (IsFitPolynomial gadget.now) polynomials.now }
    ensures { IfOk result (λ terms. AllZip (AreTermsOf gadget.now) polynomials.now terms.items) }
{
    let mut terms = Vec::new(alloc);
    for polynomial in polynomials {
        terms.push(terms_of(alloc, gadget, polynomial)?)?;
    }
    Ok(terms)
}

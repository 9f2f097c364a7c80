//! Sums and products.

ghost use Rattle.std.specs.Prelude.{◌≡◌, ◌<◌, ◌≤◌, ◌++◌, ◌↔◌, length, map, bit_or, All, IfOk, OnOk, Err, IsTrue};
ghost use Rattle.gadget_model.specs.Polynomials.{symmetric_difference, odd_ones, unions};
ghost use Rattle.gadget_limits.specs.Limits.{most_monomials};
ghost use Rattle.anf.specs.Polynomials.{IsSetOf, HasFewVariables, Occurs, set_of};
ghost use Rattle.anf.specs.Monomials.{sets_of, AreRising, AreFilled, AreSmall, IsFactor, AreFactors};
ghost use Rattle.anf.specs.Keys.{HaveKey};
ghost use Rattle.anf.specs.declared.poly_error.PolyError.TheVariants.{TooWide};

use crate::key::Key;
use crate::reduction::odd_ones;
use crate::{Monomial, Poly, PolyError};
use std::alloc::{AllocError, Global};

// Adds the keys of some monomials.
fn push_keys(keys: &mut Vec<Key>, monomials: &[Monomial]) -> Result<(), AllocError>
    requires keys { All HaveKey keys.old.items }
    requires rising { AreRising monomials.now }
    requires filled { AreFilled monomials.now }
    requires small { AreSmall monomials.now }
    ensures keys { OnOk result (All HaveKey keys.new.items) }
    ensures sets { OnOk result (map set_of keys.new.items ≡ map set_of keys.old.items ++ sets_of monomials.now) }
{
    for monomial in monomials {
        keys.push(Key::make(monomial))?;
    }
    Ok(())
}

// The keys of the monomials of both.
fn joined(alloc: Global, a: &[Monomial], b: &[Monomial]) -> Result<Vec<Key>, AllocError>
    requires rising_a { AreRising a.now }
    requires filled_a { AreFilled a.now }
    requires small_a { AreSmall a.now }
    requires rising_b { AreRising b.now }
    requires filled_b { AreFilled b.now }
    requires small_b { AreSmall b.now }
    ensures keys { IfOk result (λ keys. All HaveKey keys.items) }
    ensures sets { IfOk result (λ keys. map set_of keys.items ≡ sets_of a.now ++ sets_of b.now) }
{
    let mut keys = Vec::new(alloc);
    push_keys(&mut keys, a)?;
    push_keys(&mut keys, b)?;
    Ok(keys)
}

/// The sum of two polynomials: monomials of both cancel.
pub fn sum(alloc: Global, a: &Poly, b: &Poly) -> Result<Poly, PolyError>
    ensures sum { IfOk result (IsSetOf (symmetric_difference a.now b.now)) }
    ensures few { OnOk result (length (symmetric_difference a.now b.now) ≤ most_monomials) }
    ensures too_wide { result ≡ Err TooWide → most_monomials < length (symmetric_difference a.now b.now) }
{
    let keys = joined(alloc, &a.monomials, &b.monomials)?;
    odd_ones(alloc, keys)
}

// Adds the key of the product of a monomial with each of others.
fn push_unions(keys: &mut Vec<Key>, monomial: &[u16], others: &[Monomial]) -> Result<(), AllocError>
    requires keys { All HaveKey keys.old.items }
    requires factor { IsFactor monomial.now }
    requires others { AreFactors others.now }
    ensures keys { OnOk result (All HaveKey keys.new.items) }
    ensures unions { OnOk result (map set_of keys.new.items
        ≡ map set_of keys.old.items ++ map (bit_or (set_of monomial.now)) (sets_of others.now)) }
{
    for other in others {
        keys.push(Key::union(monomial, other))?;
    }
    Ok(())
}

// The keys of the products of each monomial of the one and each of the other, as often as they arise.
fn all_unions(alloc: Global, a: &[Monomial], b: &[Monomial]) -> Result<Vec<Key>, AllocError>
    requires a { AreFactors a.now }
    requires b { AreFactors b.now }
    ensures keys { IfOk result (λ keys. All HaveKey keys.items) }
    ensures unions { IfOk result (λ keys. map set_of keys.items ≡ unions (sets_of a.now) (sets_of b.now)) }
{
    let mut keys = Vec::new(alloc);
    for monomial in a {
        push_unions(&mut keys, monomial, b)?;
    }
    Ok(keys)
}

/// The product of two polynomials: unions that arise twice cancel.
pub fn product(alloc: Global, a: &Poly, b: &Poly) -> Result<Poly, PolyError>
    requires few_a { HasFewVariables a.now }
    requires few_b { HasFewVariables b.now }
    ensures product { IfOk result (IsSetOf (odd_ones (unions a.now b.now))) }
    ensures few { OnOk result (length (odd_ones (unions a.now b.now)) ≤ most_monomials) }
    ensures too_wide { result ≡ Err TooWide → most_monomials < length (odd_ones (unions a.now b.now)) }
{
    let keys = all_unions(alloc, &a.monomials, &b.monomials)?;
    odd_ones(alloc, keys)
}

/// Whether a variable is in some monomial.
pub fn occurs(p: &Poly, v: u16) -> bool
    ensures { IsTrue result ↔ Occurs p.now v }
{
    p.monomials.iter().any(|monomial| monomial.contains(&v))
}

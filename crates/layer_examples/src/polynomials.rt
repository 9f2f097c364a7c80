//! Sums and products worked out by hand.

ghost use Rattle.std.specs.Prelude.{IsTrue};
ghost use Rattle.anf.specs.Polynomials.{HasFewVariables};

use anf::{Poly, PolyError, occurs, product, sum};
use std::alloc::Global;
use std::ops::Range;
use std::test::Fail;

// Whether each monomial has at most two variables, as `product` asks.
fn has_few_variables(p: &Poly) -> bool
    ensures { IsTrue result → HasFewVariables p.now }
{
    p.monomials().iter().all(|monomial| monomial.len() <= 2)
}

// The sum of the variables of a range.
fn sum_of(alloc: Global, variables: Range<u16>) -> Result<Poly, PolyError> {
    let mut all = Poly::zero(alloc);
    for v in variables {
        all = sum(alloc, &all, &Poly::variable(alloc, v)?)?;
    }
    Ok(all)
}

#[test]
fn a_square_of_a_sum_is_the_sum(rt: HostRuntime) -> Result<(), Fail> {
    let x = sum_of(rt.alloc(), 0..2)?;
    assert!(rt; has_few_variables(&x));
    let square = product(rt.alloc(), &x, &x)?;
    let monomials = square.monomials();
    assert_eq!(rt; monomials.len(), 2);
    assert_eq!(rt; monomials[0].as_slice(), [0].as_slice());
    assert_eq!(rt; monomials[1].as_slice(), [1].as_slice());
    Ok(())
}

#[test]
fn a_sum_of_a_polynomial_with_a_clone_of_it_is_zero(rt: HostRuntime) -> Result<(), Fail> {
    let x = sum_of(rt.alloc(), 3..9)?;
    let zero = sum(rt.alloc(), &x, &x.clone()?)?;
    assert_eq!(rt; zero.monomials().len(), 0);
    Ok(())
}

#[test]
fn monomials_come_in_lexicographic_order(rt: HostRuntime) -> Result<(), Fail> {
    let x = sum(
        rt.alloc(),
        &Poly::variable(rt.alloc(), 5)?,
        &Poly::variable(rt.alloc(), 2)?,
    )?;
    let y = sum_of(rt.alloc(), 1..3)?;
    assert!(rt; has_few_variables(&x));
    assert!(rt; has_few_variables(&y));
    let p = product(rt.alloc(), &x, &y)?;
    let monomials = p.monomials();
    assert_eq!(rt; monomials.len(), 4);
    assert_eq!(rt; monomials[0].as_slice(), [1, 2].as_slice());
    assert_eq!(rt; monomials[1].as_slice(), [1, 5].as_slice());
    assert_eq!(rt; monomials[2].as_slice(), [2].as_slice());
    assert_eq!(rt; monomials[3].as_slice(), [2, 5].as_slice());
    Ok(())
}

#[test]
fn a_polynomial_has_at_most_256_monomials(rt: HostRuntime) -> Result<(), Fail> {
    let x = sum_of(rt.alloc(), 0..16)?;
    let y = sum_of(rt.alloc(), 16..32)?;
    assert!(rt; has_few_variables(&x));
    assert!(rt; has_few_variables(&y));
    let p = product(rt.alloc(), &x, &y)?;
    assert_eq!(rt; p.monomials().len(), 256);
    let one_more = sum(rt.alloc(), &p, &Poly::variable(rt.alloc(), 0)?);
    assert!(rt; matches!(one_more, Err(PolyError::TooWide)));
    Ok(())
}

#[test]
fn a_variable_occurs_in_any_monomial(rt: HostRuntime) -> Result<(), Fail> {
    let x = sum_of(rt.alloc(), 4..6)?;
    assert!(rt; occurs(&x, 4));
    assert!(rt; occurs(&x, 5));
    assert!(rt; !occurs(&x, 3));
    Ok(())
}

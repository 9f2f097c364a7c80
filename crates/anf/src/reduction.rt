//! Lists of monomials in which some arise more than once.

ghost use Rattle.std.specs.Prelude.{◌≡◌, ◌<◌, ◌≤◌, length, map, All, IfOk, OnOk, Err};
ghost use Rattle.std.specs.List.Sorted.{IsSorted};
ghost use Rattle.std.specs.Ordering.{nat_cmp};
ghost use Rattle.gadget_model.specs.Polynomials.{odd_ones};
ghost use Rattle.gadget_limits.specs.Limits.{most_monomials};
ghost use Rattle.anf.specs.Polynomials.{IsSetOf, set_of};
ghost use Rattle.anf.specs.Monomials.{lists_of};
ghost use Rattle.anf.specs.Keys.{key_of, HaveKey};
ghost use Rattle.anf.specs.Reduction.{ends_in, with_monomial, HaveRisingKeys, HaveSameParities};
ghost use Rattle.anf.specs.declared.poly_error.PolyError.TheVariants.{TooWide};

use crate::key::Key;
use crate::{Monomial, Poly, PolyError};
use gadget_limits::MOST_MONOMIALS;
use std::alloc::{AllocError, AllocFailed, Global};

// Whether the last of the keys is this one.
fn ends_in(keys: &[Key], key: Key) -> bool
    ensures { result ≡ ends_in keys.now key }
{
    keys.last().is_some_and(|last| *last == key)
}

// Adds a key, which cancels the last one where they are the same.
fn add(kept: &mut Vec<Key>, key: Key) -> Result<(), AllocFailed<Key>>
    ensures { OnOk result (kept.new.items ≡ with_monomial kept.old.items key) }
{
    if ends_in(kept, key) {
        kept.pop();
        Ok(())
    } else {
        kept.push(key)
    }
}

// The sum of monomials in the order of their keys: those that arise an odd number of times.
fn sum_of_sorted(alloc: Global, sorted: &[Key]) -> Result<Vec<Key>, AllocError>
    requires keys { All HaveKey sorted.now }
    requires sorted { IsSorted (λ a b. nat_cmp (key_of a) (key_of b)) sorted.now }
    ensures keys { IfOk result (λ kept. All HaveKey kept.items) }
    ensures rising { IfOk result (λ kept. HaveRisingKeys kept.items) }
    ensures parities { IfOk result (λ kept. HaveSameParities kept.items sorted.now) }
{
    let mut kept = Vec::new(alloc);
    for key in sorted {
        add(&mut kept, *key)?;
    }
    Ok(kept)
}

// The monomials with these keys.
fn monomials(alloc: Global, keys: &[Key]) -> Result<Vec<Monomial>, AllocError>
    ensures { IfOk result (λ monomials. lists_of monomials.items ≡ keys.now) }
{
    let mut monomials = Vec::new(alloc);
    for key in keys {
        monomials.push(key.monomial(alloc)?)?;
    }
    Ok(monomials)
}

// The monomials that arise an odd number of times.
pub(crate) fn odd_ones(alloc: Global, mut keys: Vec<Key>) -> Result<Poly, PolyError>
    requires { All HaveKey keys.items }
    ensures odd { IfOk result (IsSetOf (odd_ones (map set_of keys.items))) }
    ensures few { OnOk result (length (odd_ones (map set_of keys.items)) ≤ most_monomials) }
    ensures too_wide { result ≡ Err TooWide → most_monomials < length (odd_ones (map set_of keys.items)) }
{
    keys.sort_unstable();
    let kept = sum_of_sorted(alloc, &keys)?;
    if kept.len() > MOST_MONOMIALS {
        return Err(PolyError::TooWide);
    }
    Ok(Poly {
        monomials: monomials(alloc, &kept)?,
    })
}

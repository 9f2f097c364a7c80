//! Polynomials, and their readers.

ghost use Rattle.std.specs.Prelude.{◌≡◌, ◌≢◌, ◌≤◌, ◌^◌, [], ◌∷◌, length, AllPairs, IfOk, IfErr};
ghost use Rattle.gadget_limits.specs.Limits.{most_monomials};
ghost use Rattle.anf.specs.Monomials.{sets_of, AreRising, AreSmall, AreInOrder};
ghost use Rattle.anf.specs.declared.poly_error.PolyError.TheVariants.{OutOfMemory};

use crate::PolyError;
use smallvec::SmallVec;
use std::alloc::{AllocError, Global};
use std::marker::Model;

/// A product of distinct variables, by their numbers. Those of a polynomial rise, and are one to four.
pub type Monomial = SmallVec<u16, 4>;

/// A polynomial over GF(2) in algebraic normal form: a sum of distinct monomials, each a product of
/// distinct variables. Contracts see it as the list of its monomials, each as the set of its variables.
#[derive(Drop)]
pub struct Poly {
    pub(crate) monomials: Vec<Monomial>,
}

impl Model for Poly {
    ghost use Rattle.std.specs.Prelude.{List, ℕ};
    ghost use Rattle.anf.specs.Monomials.{sets_of, IsPoly};

    ghost Value = { List ℕ };

    ghost view = { λ p. sets_of p.monomials.items };

    ghost invariant = { λ p. IsPoly p.monomials.items };
}

impl Poly {
    /// The polynomial that is 0 everywhere.
    pub fn zero(alloc: Global) -> Poly
        ensures { result ≡ [] }
    {
        Poly {
            monomials: Vec::new(alloc),
        }
    }

    /// The polynomial that is one variable.
    pub fn variable(alloc: Global, v: u16) -> Result<Poly, PolyError>
        ensures variable { IfOk result (λ p. p ≡ 2 ^ v ∷ []) }
        ensures memory { IfErr result (λ e. e ≡ OutOfMemory) }
    {
        let mut monomial = SmallVec::new(alloc);
        monomial.push(v)?;
        let mut monomials = Vec::new(alloc);
        monomials.push(monomial)?;
        Ok(Poly { monomials })
    }

    /// The monomials, in lexicographic order, each as its variables in rising order.
    pub fn monomials(&self) -> &[Monomial]
        ensures sets { sets_of result.now ≡ self.now }
        ensures rising { AreRising result.now }
        ensures small { AreSmall result.now }
        ensures sorted { AreInOrder result.now }
        ensures once { AllPairs (λ a b. a ≢ b) self.now }
        ensures few { length self.now ≤ most_monomials }
    {
        &self.monomials
    }
}

impl Clone for Poly {
    ghost is_clone = { λ p q. q ≡ p };

    fn clone(&self) -> Result<Poly, AllocError> {
        Ok(Poly {
            monomials: self.monomials.clone()?,
        })
    }
}

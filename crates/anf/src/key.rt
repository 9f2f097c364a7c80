//! Keys of monomials: whole numbers that compare as the monomials do, so that many are sorted fast.

ghost use Rattle.std.specs.Prelude.{◌≡◌, ◌<◌, ◌≤◌, [], ◌∷◌, length, bit_or, IfOk};
ghost use Rattle.std.specs.List.Sorted.{IsStrictlyIncreasing};
ghost use Rattle.anf.specs.Monomials.{most_in_monomial, IsFactor};
ghost use Rattle.anf.specs.Polynomials.{set_of};
ghost use Rattle.anf.specs.Keys.{key_of, each_once, HaveKey};

use crate::Monomial;
use smallvec::SmallVec;
use std::alloc::{AllocError, Global};
use std::marker::Model;

/// The key of a monomial: a number with a digit of 16 bits for each of four places, the first one highest. The last
/// variable fills the places that are left. Contracts see it as the list of the variables.
#[derive(Clone, Copy, PartialEq, Eq, PartialOrd, Ord, Drop)]
pub(crate) struct Key {
    number: u64,
}

impl Model for Key {
    ghost use Rattle.std.specs.Prelude.{List, ℕ};
    ghost use Rattle.anf.specs.Keys.{key_of, variables_of_key, IsKey};

    ghost Value = { List ℕ };

    ghost view = { λ k. variables_of_key k.number };

    ghost invariant = { λ k. IsKey k.number };

    ghost inverse = { λ variables. record { number = key_of variables } };

    ghost inverse_ok = { λ k h i. record { number = h i } };
}

// The number of the key of four variables, of which one that equals the one before it does not count.
fn packed(a: u16, b: u16, c: u16, d: u16) -> u64
    ensures { result ≡ key_of (each_once (a ∷ b ∷ c ∷ d ∷ [])) }
{
    let (second, third) = match (a == b, b == c) {
        (false, false) => (b, c),
        (false, true) => (b, d),
        (true, false) => (c, d),
        (true, true) => (d, d),
    };
    u64::from(a) * (1 << 48)
        + u64::from(second) * (1 << 32)
        + u64::from(third) * (1 << 16)
        + u64::from(d)
}

impl Key {
    // The key of four variables in order, of which equal ones count once.
    fn from_four(a: u16, b: u16, c: u16, d: u16) -> Key
        requires { (a ≤ b) × (b ≤ c) × (c ≤ d) }
        ensures variables { result ≡ each_once (a ∷ b ∷ c ∷ d ∷ []) }
        ensures key { HaveKey result }
    {
        Key {
            number: packed(a, b, c, d),
        }
    }

    /// The key of the variables of a monomial.
    pub(crate) fn make(variables: &[u16]) -> Key
        requires rising { IsStrictlyIncreasing variables.now }
        requires some { 0 < length variables.now }
        requires few { length variables.now ≤ most_in_monomial }
        ensures variables { result ≡ variables.now }
        ensures key { HaveKey result }
    {
        let last = variables.len() - 1;
        Key::from_four(
            variables[0],
            variables[last.min(1)],
            variables[last.min(2)],
            variables[last],
        )
    }

    /// The key of the product of two monomials, which has the variables of both.
    pub(crate) fn union(one: &[u16], other: &[u16]) -> Key
        requires one { IsFactor one.now }
        requires other { IsFactor other.now }
        ensures union { set_of result ≡ bit_or (set_of one.now) (set_of other.now) }
        ensures key { HaveKey result }
    {
        // A variable alone is the first and the last one. Three exchanges put two pairs in order.
        let (a, b) = (one[0], one[one.len() - 1]);
        let (c, d) = (other[0], other[other.len() - 1]);
        let (x, y) = (a.max(c), b.min(d));
        Key::from_four(a.min(c), x.min(y), x.max(y), b.max(d))
    }

    /// The monomial with these variables.
    pub(crate) fn monomial(self, alloc: Global) -> Result<Monomial, AllocError>
        ensures { IfOk result (λ monomial. monomial.items ≡ self) }
    {
        let digits = [
            (self.number / (1 << 48)) as u16,
            (self.number / (1 << 32) % (1 << 16)) as u16,
            (self.number / (1 << 16) % (1 << 16)) as u16,
            (self.number % (1 << 16)) as u16,
        ];
        let mut variables = SmallVec::from_slice(alloc, &digits)?;
        variables.dedup();
        Ok(variables)
    }
}

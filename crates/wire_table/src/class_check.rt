//! Which polynomials are outside the class of gadgets that elimination decides.

ghost use Rattle.std.specs.Prelude.{◌≡◌, ◌<◌, ℕ, length, MatchResult};
ghost use Rattle.std.specs.List.{All};
ghost use Rattle.gadget_model.specs.Polynomials.{polynomial};
ghost use Rattle.gadget_model.specs.Classes.{IsFit};
ghost use Rattle.anf.specs.Polynomials.{IsSetOf};
ghost use Rattle.gadget_tree.specs.Seen.{node_of};
ghost use Rattle.wire_table.specs.Refusals.{Refuses};
ghost use Rattle.wire_table.specs.Terms.{node_at};
ghost use Rattle.wire_table.specs.WirePolynomials.{is_random, has_random, multiplies_random, any_multiplies_random, any_above_two};

use crate::wire_error::WireError;
use anf::{Monomial, Poly};
use gadget_tree::{Gadget, Var, VarKind};

// Whether a variable is a random.
fn is_random(kind: VarKind) -> bool
    ensures { result ≡ is_random (node_of kind) }
{
    matches!(kind, VarKind::Random(_))
}

// Whether the variable with a number is a random.
fn is_random_at(vars: &[Var], v: u16) -> bool
    requires { v < length vars.now }
    ensures { result ≡ is_random (node_at vars.now v) }
{
    is_random(vars[usize::from(v)].kind)
}

// Whether some of the variables is a random.
fn has_random(vars: &[Var], monomial: &[u16]) -> bool
    requires { All (λ v. v < length vars.now) monomial.now }
    ensures { result ≡ has_random vars.now monomial.now }
{
    monomial.iter().any(|v| is_random_at(vars, *v))
}

// Whether a monomial has a random and another variable.
fn multiplies_random(vars: &[Var], monomial: &[u16]) -> bool
    requires { All (λ v. v < length vars.now) monomial.now }
    ensures { result ≡ multiplies_random vars.now monomial.now }
{
    monomial.len() > 1 && has_random(vars, monomial)
}

// Whether some monomial has a random and another variable.
fn any_multiplies_random(vars: &[Var], monomials: &[Monomial]) -> bool
    requires { All (λ m. All (λ v. v < length vars.now) m.items) monomials.now }
    ensures { result ≡ any_multiplies_random vars.now monomials.now }
{
    monomials
        .iter()
        .any(|monomial| multiplies_random(vars, monomial.as_slice()))
}

// Whether some monomial has over two variables.
fn any_above_two(monomials: &[Monomial]) -> bool
    ensures { result ≡ any_above_two monomials.now }
{
    monomials.iter().any(|monomial| monomial.len() > 2)
}

/// Refuses the polynomial of a variable for a random in a product, or for a degree above two.
pub(crate) fn check_class(gadget: &Gadget, var: u16, poly: &Poly) -> Result<(), WireError>
    requires there { var < length gadget.now.variables }
    requires same { IsSetOf (polynomial gadget.now var) poly.now }
    requires first { (v : ℕ) → v < var → IsFit gadget.now v }
    ensures { MatchResult result (λ _. IsFit gadget.now var) (Refuses gadget.now) }
{
    let vars = gadget.vars();
    let line = vars[usize::from(var)].line;
    let monomials = poly.monomials();
    if any_multiplies_random(vars, monomials) {
        return Err(WireError::RandomProduct { var, line });
    }
    if any_above_two(monomials) {
        return Err(WireError::Degree { var, line });
    }
    Ok(())
}

//! The polynomials of a gadget's variables.

ghost use Rattle.std.specs.Prelude.{◌≡◌, ◌≢◌, ◌<◌, ◌≤◌, length, All, AllPairs, IfOk, IfErr, Err};
ghost use Rattle.gadget_model.specs.Circuit.{NamesEarlier};
ghost use Rattle.gadget_model.specs.Classes.{IsTooWide};
ghost use Rattle.gadget_limits.specs.Limits.{most_randoms};
ghost use Rattle.gadget_model.specs.Polynomials.{polynomial_of};
ghost use Rattle.anf.specs.Polynomials.{IsSetOf, HasFewVariables};
ghost use Rattle.anf.specs.declared.poly_error.PolyError.TheVariants.{TooWide};
ghost use Rattle.gadget_tree.specs.Seen.{node_of};
ghost use Rattle.wire_table.specs.Refusals.{Refuses};
ghost use Rattle.wire_table.specs.WirePolynomials.{polynomial_at, IsPolynomialOf, ArePolynomials};

use crate::class_check::check_class;
use crate::wire_error::WireError;
use anf::{Poly, PolyError};
use gadget_tree::{Gadget, VarKind};
use std::alloc::Global;

// The polynomial of a variable, from those of the earlier ones.
fn polynomial_of(
    alloc: Global,
    earlier: &[Poly],
    number: u16,
    kind: VarKind,
) -> Result<Poly, PolyError>
    requires named { NamesEarlier most_randoms (length earlier.now) (node_of kind) }
    requires once { All (AllPairs (λ a b. a ≢ b)) earlier.now }
    requires few { All HasFewVariables earlier.now }
    ensures ok { IfOk result (IsSetOf (polynomial_of (polynomial_at earlier.now) number (node_of kind))) }
    ensures too_wide { result ≡ Err TooWide →
        IsTooWide (polynomial_of (polynomial_at earlier.now) number (node_of kind)) }
{
    match kind {
        VarKind::Share { .. } | VarKind::Random(_) => Poly::variable(alloc, number),
        VarKind::Copy(a) => Ok(earlier[usize::from(a)].clone()?),
        VarKind::Sum(a, b) => anf::sum(alloc, &earlier[usize::from(a)], &earlier[usize::from(b)]),
        VarKind::Product(a, b) => {
            anf::product(alloc, &earlier[usize::from(a)], &earlier[usize::from(b)])
        }
    }
}

// The polynomial of the next variable after the earlier ones, or its fault.
fn next_polynomial(alloc: Global, gadget: &Gadget, earlier: &[Poly]) -> Result<Poly, WireError>
    requires there { length earlier.now < length gadget.now.variables }
    requires earlier { ArePolynomials gadget.now earlier.now }
    ensures polynomial { IfOk result (IsPolynomialOf gadget.now (length earlier.now)) }
    ensures refused { IfErr result (Refuses gadget.now) }
{
    let vars = gadget.vars();
    let number = earlier.len();
    let var = number as u16;
    let line = vars[number].line;
    let found = match polynomial_of(alloc, earlier, var, vars[number].kind) {
        Ok(found) => found,
        Err(PolyError::TooWide) => return Err(WireError::TooWide { var, line }),
        Err(PolyError::OutOfMemory) => return Err(WireError::OutOfMemory),
    };
    check_class(gadget, var, &found)?;
    Ok(found)
}

/// The polynomial of each variable, or the first fault.
pub(crate) fn polynomials(alloc: Global, gadget: &Gadget) -> Result<Vec<Poly>, WireError>
    ensures every { IfOk result (λ ps. length ps.items ≡ length gadget.now.variables) }
    ensures polynomials { IfOk result (λ ps. ArePolynomials gadget.now ps.items) }
    ensures refused { IfErr result (Refuses gadget.now) }
{
    let mut polynomials = Vec::new(alloc);
    for _var in gadget.vars() {
        let next = next_polynomial(alloc, gadget, &polynomials)?;
        polynomials.push(next)?;
    }
    Ok(polynomials)
}

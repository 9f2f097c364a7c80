//! How many operand places name each variable.

ghost use Rattle.std.specs.Prelude.{◌≡◌, ◌==◌, ◌≤◌, length, map, count_by, IfOk};
ghost use Rattle.std.specs.List.{range_with_len};
ghost use Rattle.gadget_limits.specs.Limits.{most_variables};
ghost use Rattle.gadget_tree.specs.Seen.{node_of};
ghost use Rattle.wire_table.specs.Uses.{operands};
ghost use Rattle.wire_table.specs.UseCounts.{uses_among};

use gadget_tree::{Var, VarKind};
use std::alloc::{AllocError, Global};

// How many operand places of one variable name another.
fn places(kind: VarKind, v: u16) -> u32
    ensures count { result ≡ count_by (λ a. a == v) (operands (node_of kind)) }
    ensures few { result ≤ 2 }
{
    match kind {
        VarKind::Share { .. } | VarKind::Random(_) => 0,
        VarKind::Copy(a) => u32::from(a == v),
        VarKind::Sum(a, b) | VarKind::Product(a, b) => u32::from(a == v) + u32::from(b == v),
    }
}

// How many operand places name a variable.
fn uses_among(vars: &[Var], v: u16) -> u32
    requires { length vars.now ≤ most_variables }
    ensures { result ≡ uses_among vars.now v }
{
    let mut uses = 0;
    for var in vars {
        uses += places(var.kind, v);
    }
    uses
}

/// How many operand places name each variable.
pub(crate) fn uses(alloc: Global, vars: &[Var]) -> Result<Vec<u32>, AllocError>
    requires { length vars.now ≤ most_variables }
    ensures { IfOk result (λ uses. uses.items ≡ map (uses_among vars.now) (range_with_len 0 (length vars.now))) }
{
    let count = vars.len() as u16;
    (0..count).map(|v| uses_among(vars, v)).collect(alloc)
}

//! Variables: the wires of a gadget.

ghost use Rattle.std.specs.Prelude.{ℕ, ◌≡◌, ◌<◌};
ghost use Rattle.gadget_limits.specs.Limits.{most_shares};
ghost use Rattle.gadget_tree.specs.declared.var.VarKind.TheVariants.{Share};

use crate::name::Name;

/// How a variable gets its value. Operands are numbers of earlier variables.
#[derive(Clone, Copy, Debug, PartialEq, Eq, Drop)]
pub enum VarKind {
    /// Share `index` of an input, which is counted from 0.
    Share { input: u8, index: u8 },
    /// A random, by its place among the gadget's randoms.
    Random(u8),
    /// The value of another variable.
    Copy(u16),
    /// The exclusive or of two variables.
    Sum(u16, u16),
    /// The and of two variables.
    Product(u16, u16),
}

/// A variable.
#[derive(Drop)]
pub struct Var {
    pub name: Name,
    pub kind: VarKind,
    /// The line that made it, counted from 1; that of a share is the line of its header.
    pub line: u32,
    // The number of a share, 16 * input + index, then has one input and one index.
    ghost share_index: { (input index : ℕ) → kind ≡ Share input index → index < most_shares },
}

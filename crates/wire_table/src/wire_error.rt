//! Why a gadget has no table.

ghost use Rattle.std.specs.Prelude.{◌≡◌};
ghost use Rattle.wire_table.specs.declared.wire_error.WireError.TheVariants.{OutOfMemory};

use std::alloc::{AllocError, AllocFailed};

/// Why a gadget has no table: its first variable outside the class of gadgets that elimination decides, with the line
/// of that variable, counted from 1. A variable with several faults is named by the first of them in this order.
#[derive(Clone, Copy, Debug, PartialEq, Eq, Drop)]
pub enum WireError {
    /// The polynomial of the variable has over 256 monomials.
    TooWide { var: u16, line: u32 },
    /// A monomial of it has a random and another variable.
    RandomProduct { var: u16, line: u32 },
    /// A monomial of it has over two input shares.
    Degree { var: u16, line: u32 },
    /// Memory ran out.
    OutOfMemory,
}

impl From<AllocError> for WireError {
    ghost from_gives = { λ _ e. e ≡ OutOfMemory };

    fn from(_error: AllocError) -> WireError {
        WireError::OutOfMemory
    }
}

impl<T: Drop> From<AllocFailed<T>> for WireError {
    ghost from_gives = { λ _ e. e ≡ OutOfMemory };

    fn from(_error: AllocFailed<T>) -> WireError {
        WireError::OutOfMemory
    }
}

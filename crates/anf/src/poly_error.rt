//! Why there is no polynomial.

ghost use Rattle.std.specs.Prelude.{◌≡◌};
ghost use Rattle.anf.specs.declared.poly_error.PolyError.TheVariants.{OutOfMemory};

use std::alloc::{AllocError, AllocFailed};

/// Why there is no polynomial.
#[derive(Clone, Copy, Debug, PartialEq, Eq, Drop)]
pub enum PolyError {
    /// It has over 256 monomials.
    TooWide,
    /// Memory ran out.
    OutOfMemory,
}

impl From<AllocError> for PolyError {
    ghost from_gives = { λ _ e. e ≡ OutOfMemory };

    fn from(_error: AllocError) -> PolyError {
        PolyError::OutOfMemory
    }
}

impl<T: Drop> From<AllocFailed<T>> for PolyError {
    ghost from_gives = { λ _ e. e ≡ OutOfMemory };

    fn from(_error: AllocFailed<T>) -> PolyError {
        PolyError::OutOfMemory
    }
}

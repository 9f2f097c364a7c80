//! Why bytes could not be had, kept or passed on.
ghost use Rattle.std.specs.Prelude.{◌≡◌};
ghost use Rattle.mask_bytes.specs.declared.error.ReadError.TheVariants.{ReadFault, OutOfMemory};

use std::alloc::{AllocError, AllocFailed};

/// Memory was not found.
#[derive(Clone, Copy, Debug, PartialEq, Eq)]
pub struct OutOfMemory;

impl From<AllocError> for OutOfMemory {
    ghost from_gives = { λ _ error. error ≡ record {} };

    fn from(_error: AllocError) -> OutOfMemory {
        OutOfMemory
    }
}

impl<T: Drop> From<AllocFailed<T>> for OutOfMemory {
    ghost from_gives = { λ _ error. error ≡ record {} };

    fn from(_error: AllocFailed<T>) -> OutOfMemory {
        OutOfMemory
    }
}

/// A read or a write failed, and the object that failed has counted it.
#[derive(Clone, Copy, Debug, PartialEq, Eq)]
pub struct Failed;

/// Why a whole read gave no bytes.
#[derive(Clone, Copy, Debug, PartialEq, Eq)]
pub enum ReadError {
    /// A read of the source failed.
    ReadFault,
    /// The source had more bytes than were allowed.
    TooLong,
    /// Memory was not found for the bytes.
    OutOfMemory,
}

impl From<Failed> for ReadError {
    ghost from_gives = { λ _ error. error ≡ ReadFault };

    fn from(_error: Failed) -> ReadError {
        ReadError::ReadFault
    }
}

impl From<AllocError> for ReadError {
    ghost from_gives = { λ _ error. error ≡ OutOfMemory };

    fn from(_error: AllocError) -> ReadError {
        ReadError::OutOfMemory
    }
}

//! How a check ends.

ghost use Rattle.std.specs.Prelude.{◌≡◌};
ghost use Rattle.report.specs.Causes.{status_of_read, status_of_file, status_of_wires};
ghost use Rattle.report.specs.declared.status.Status.TheVariants.{WriteFault, OutOfMemory};

use gadget_tree::FileError;
use mask_bytes::{Failed, OutOfMemory, ReadError};
use mask_terms::UsageKind;
use wire_table::WireError;

/// Why a gadget doesn't suit a task.
#[derive(Clone, Copy, Debug, PartialEq, Eq, Drop)]
pub enum NotFor {
    /// Strong non-interference speaks of gadgets with one output.
    SeveralOutputs,
    /// Expandability speaks of gadgets with at most two inputs.
    ManyInputs,
    /// The order is more than the number of shares, or, for expandability, as much.
    OrderTooLarge,
    /// There would be so many events, which is more than a check goes through.
    ManyEvents(u64),
}

/// How a check ends.
#[derive(Clone, Copy, Debug, PartialEq, Eq, Drop)]
pub enum Status {
    /// No set of probes fails, and the report says so.
    Yes,
    /// Some set of probes fails, and the report lists the minimal ones.
    No,
    /// The report lists the minimal failing sets of wires of each event.
    Listed,
    /// The words of the command line are wrong in this part.
    Usage(UsageKind),
    /// `--size` or `--wires` was given with a task that uses neither.
    SizeNotUsed,
    /// The file is refused.
    File(FileError),
    /// The gadget is outside the class that the verifier decides.
    Wires(WireError),
    /// The file has more than 1,048,576 bytes.
    TooLong,
    /// The gadget doesn't suit the task.
    NotForGadget(NotFor),
    /// So many tuples would have to be looked at, which is more than the budget.
    Budget(u64),
    /// The source failed.
    ReadFault,
    /// The sink failed; a part of the report may have been written.
    WriteFault,
    /// Memory ran out.
    OutOfMemory,
}

impl From<ReadError> for Status {
    ghost from_gives = { λ error status. status ≡ status_of_read error };

    fn from(error: ReadError) -> Status {
        match error {
            ReadError::ReadFault => Status::ReadFault,
            ReadError::TooLong => Status::TooLong,
            ReadError::OutOfMemory => Status::OutOfMemory,
        }
    }
}

impl From<FileError> for Status {
    ghost from_gives = { λ error status. status ≡ status_of_file error };

    fn from(error: FileError) -> Status {
        match error {
            FileError::OutOfMemory => Status::OutOfMemory,
            error => Status::File(error),
        }
    }
}

impl From<WireError> for Status {
    ghost from_gives = { λ error status. status ≡ status_of_wires error };

    fn from(error: WireError) -> Status {
        match error {
            WireError::OutOfMemory => Status::OutOfMemory,
            error => Status::Wires(error),
        }
    }
}

impl From<OutOfMemory> for Status {
    ghost from_gives = { λ _ status. status ≡ OutOfMemory };

    fn from(_error: OutOfMemory) -> Status {
        Status::OutOfMemory
    }
}

impl From<Failed> for Status {
    ghost from_gives = { λ _ status. status ≡ WriteFault };

    fn from(_error: Failed) -> Status {
        Status::WriteFault
    }
}

//! The tasks of random probing.

use mask_bytes::OutOfMemory;

/// What is asked of a gadget whose wires leak at random.
#[derive(Clone, Copy, Debug, PartialEq, Eq, Drop)]
pub enum Rp {
    /// Composability: any t shares of each output are simulated beside the leaking wires.
    Rpc,
    /// Expandability: of each output t given shares, or all but one that the simulator chooses.
    Rpe,
}

/// Why there are no events.
#[derive(Clone, Copy, Debug, PartialEq, Eq, Drop)]
pub enum RpError {
    /// Expandability asks over at most two inputs.
    ManyInputs,
    /// More shares are given than an output has, or, of expandability, as many.
    OrderTooLarge,
    /// There would be so many events, which are more than 65,536.
    ManyEvents(u64),
    /// Memory ran out.
    OutOfMemory,
}

impl From<OutOfMemory> for RpError {
    ghost use Rattle.std.specs.Prelude.{◌≡◌};
    ghost use Rattle.rp_events.specs.declared.rp.RpError.TheVariants as error;

    ghost from_gives = { λ _ e. e ≡ error.OutOfMemory };

    fn from(_error: OutOfMemory) -> RpError {
        RpError::OutOfMemory
    }
}

//! Where bytes go.
ghost use Rattle.std.specs.Prelude.{◌≡◌, ℕ, ◌<◌, ◌≤◌, List, length, take, Option, IfOk, OnOk, OnErr};
ghost use Rattle.std.specs.Io.KnownBytes.{append_known};
ghost use Rattle.mask_bytes.specs.Counts.{Rose};

use crate::error::Failed;

/// A place to write bytes to.
///
/// `written` are the bytes written so far, where the sink tells them; whether it does never
/// changes. `faults` is a count that rises at each failure, stays where a call succeeds, and never
/// falls.
pub trait Sink {
    ghost written: { Self → Option (List ℕ) };

    ghost faults: { Self → ℕ };

    /// Writes some bytes of the front of `piece`, at least one, and gives their number.
    fn write(&mut self, piece: &[u8]) -> Result<usize, Failed>
        requires { 0 < length piece.now }

        // What was taken of the piece stands after what was written before.
        ensures some { IfOk result (λ count. 0 < count) }
        ensures bound { IfOk result (λ count. count ≤ length piece.now) }
        ensures appended { IfOk result
            (λ count. written self.new ≡ append_known (written self.old) (take count piece.now)) }

        // A failure writes nothing, and is counted. Where a call succeeds, the count stays, so that
        // no call may fail, try again and keep silent of it.
        ensures unchanged { OnErr result (written self.new ≡ written self.old) }
        ensures fault { OnErr result (Rose (faults self.old) (faults self.new)) }
        ensures counted { OnOk result (faults self.new ≡ faults self.old) }
        ensures never_falls { faults self.old ≤ faults self.new };
}

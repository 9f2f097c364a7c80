//! Where bytes come from.
ghost use Rattle.std.specs.Prelude.{◌≡◌, ◌↔◌, ℕ, ◌<◌, ◌≤◌, List, [], length, take, Option, IfOk, IfSome, OnOk, OnErr};
ghost use Rattle.std.specs.Io.KnownBytes.{prepend_known};
ghost use Rattle.mask_bytes.specs.Counts.{Rose};

use crate::error::Failed;

/// A place to read bytes from, up to its end.
///
/// `left` are the bytes not yet read, where the source tells them; whether it does never changes.
/// `faults` is a count that rises at each failure, stays where a call succeeds, and never falls.
pub trait Source {
    ghost left: { Self → Option (List ℕ) };

    ghost faults: { Self → ℕ };

    /// Reads some bytes into the front of `buf` and gives their number. Zero is the end. What
    /// stands in `buf` past these bytes, and after a failure in all of it, is open.
    fn read(&mut self, buf: &mut [u8]) -> Result<usize, Failed>
        requires { 0 < length buf.old }

        // What was read stood in front of what is left.
        ensures bound { IfOk result (λ count. count ≤ length buf.new) }
        ensures taken { IfOk result
            (λ count. left self.old ≡ prepend_known (take count buf.new) (left self.new)) }
        ensures end { IfOk result
            (λ count. IfSome (left self.old) (λ bytes. (count ≡ 0) ↔ (bytes ≡ []))) }

        // A failure takes nothing, and is counted. Where a call succeeds, the count stays, so that no
        // call may fail, try again and keep silent of it.
        ensures unchanged { OnErr result (left self.new ≡ left self.old) }
        ensures fault { OnErr result (Rose (faults self.old) (faults self.new)) }
        ensures counted { OnOk result (faults self.new ≡ faults self.old) }
        ensures never_falls { faults self.old ≤ faults self.new };
}

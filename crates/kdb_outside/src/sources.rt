//! Where input comes from.
ghost use Rattle.std.specs.Prelude.{◌≡◌, ℕ, ◌≤◌, List, length, Option, None, IfOk, OnErr, IfSome};
ghost use Rattle.kdb_outside.specs.Faults.{HasCause};
ghost use Rattle.kdb_outside.specs.Bytes.{Takes};

use crate::Failed;

/// A stream of bytes that is taken from its front.
pub trait Source {
    /// The bytes that are left, where the source tells them.
    ghost left: { Self → Option (List ℕ) };

    /// How often it has failed. At the type's end the count stands still.
    ghost faults: { Self → ℕ };

    /// Moves a front of what is left into the buffer, and answers how many bytes. `Ok(0)` for a buffer that isn't
    /// empty means the end.
    fn take(&mut self, buf: &mut [u8]) -> Result<usize, Failed>
        ensures within { IfOk result (λ n. n ≤ length buf.old) }
        ensures taken { IfOk result (λ n. IfSome (left self.old) (λ bytes. Takes bytes buf.old buf.new n (left self.new))) }
        ensures untold { left self.old ≡ None → left self.new ≡ None }
        ensures same { OnErr result (left self.new ≡ left self.old) }
        ensures cause { HasCause (faults self.old) (faults self.new) result }
        ensures later { faults self.old ≤ faults self.new };
}

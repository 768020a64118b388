//! Where output goes.
ghost use Rattle.std.specs.Prelude.{◌≡◌, ℕ, ◌≤◌, List, ◌++◌, Option, Some, None, OnOk, IfSome};
ghost use Rattle.kdb_outside.specs.Faults.{HasCause};
ghost use Rattle.kdb_outside.specs.Bytes.{HoldsFront};

use crate::Failed;

/// A stream of bytes that grows at its end.
pub trait Sink {
    /// The bytes that it holds, where the sink tells them.
    ghost held: { Self → Option (List ℕ) };

    /// How often it has failed. At the type's end the count stands still.
    ghost faults: { Self → ℕ };

    /// Appends the whole piece, or fails and has appended a front of it.
    fn put(&mut self, bytes: &[u8]) -> Result<(), Failed>
        ensures whole { OnOk result (IfSome (held self.old) (λ before. held self.new ≡ Some (before ++ bytes.now))) }
        ensures front { IfSome (held self.old) (λ before. HoldsFront before bytes.now (held self.new)) }
        ensures untold { held self.old ≡ None → held self.new ≡ None }
        ensures cause { HasCause (faults self.old) (faults self.new) result }
        ensures later { faults self.old ≤ faults self.new };
}

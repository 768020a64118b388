//! How the program ends.
ghost use Rattle.std.specs.Prelude.{◌≡◌};

use std::marker::Model;

/// The command was done.
pub const DONE: u8 = 0;
/// The words behind the command are not what it takes.
pub const OPTIONS_REFUSED: u8 = 1;
/// An argument is refused, or the name that keys are to get.
pub const ARGUMENT_REFUSED: u8 = 2;
/// There is no command, or an unknown one.
pub const NO_COMMAND: u8 = 4;
/// A file is refused.
pub const REFUSED: u8 = 5;
/// The key or its metadata isn't there.
pub const NOT_FOUND: u8 = 11;
/// Both sides of a merge changed a key, and not alike.
pub const CONFLICTS: u8 = 12;
/// `validate` found keys that break a rule.
pub const VIOLATIONS: u8 = 13;
/// Want of memory.
pub const OUT_OF_MEMORY: u8 = 70;
/// A fault of the disk, of out or of err.
pub const FAULT: u8 = 74;

/// The status that a run ends with, seen as its number.
#[derive(Clone, Copy, PartialEq, Eq)]
pub struct Status {
    code: u8,
}

impl Model for Status {
    ghost use Rattle.std.specs.Prelude.{ℕ};

    ghost Value = { ℕ };

    ghost view = { λ s. s.code };

    ghost inverse = { λ code. record { code = code } };
}

impl Status {
    pub fn new(code: u8) -> Status
        ensures { result ≡ code }
    {
        Status { code }
    }

    pub fn code(self) -> u8
        ensures { result ≡ self }
    {
        self.code
    }
}

//! What a gate tells.
ghost use Rattle.std.specs.Prelude.{◌≡◌, ◌≤◌, length};
ghost use Rattle.journal_steps.specs.JournalBytes.{open_length};

/// The gate and the length of the body.
const HEAD: usize = 5;

/// An open gate.
const OPEN: u8 = 1;

/// The length in bytes of the body that the first five bytes of a journal tell of. None where there are fewer of them,
/// or the gate isn't open.
pub fn length_in(head: &[u8]) -> Option<u32>
    requires { length head.now ≤ 5 }
    ensures { result ≡ open_length head.now }
{
    if head.len() < HEAD || head[0] != OPEN {
        return None;
    }
    Some(u32::from_le_bytes([head[1], head[2], head[3], head[4]]))
}

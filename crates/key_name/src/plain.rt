//! Paths that are taken as they are.
ghost use Rattle.std.specs.Prelude.{◌≡◌, not, ◌&&◌, ◌||◌, ◌==◌, IfOk};
ghost use Rattle.key_name.specs.Plain.{begins_plainly, is_plain, is_plain_byte, plain_parts};

use crate::Memory;
use crate::part_list::PartList;
use std::alloc::Global;

/// The parts of a plain path. A path that isn't plain is left to the reader of raw parts.
pub fn plain_parts(alloc: Global, path: &str) -> Result<Option<PartList>, Memory>
    ensures { IfOk result (λ found. found ≡ plain_parts path.now) }
{
    if is_plain(path) {
        Ok(Some(PartList::between_slashes(alloc, path)?))
    } else {
        Ok(None)
    }
}

/// Whether a path is taken as it is.
fn is_plain(path: &str) -> bool
    ensures { result ≡ is_plain path.now }
{
    let mut is_first = true;
    for b in path.as_bytes() {
        if !fits(is_first, *b) {
            return false;
        }
        is_first = *b == b'/';
    }
    !is_first
}

/// Whether a byte may stand in a plain path, as the first one of a part or as another. A slash in the place of a first
/// one leaves the part empty.
fn fits(is_first: bool, byte: u8) -> bool
    ensures { result ≡ (is_plain_byte byte && (not is_first || (not (byte == 47) && begins_plainly byte))) }
{
    byte != b'\\' && byte != 0 && (!is_first || (byte != b'/' && begins_plainly(byte)))
}

/// Whether no part begins with a byte that is reserved or like an array's.
fn begins_plainly(byte: u8) -> bool
    ensures { result ≡ begins_plainly byte }
{
    byte != b'.' && byte != b'%' && byte != b'#'
}

//! How the bytes of a file are printed.

use key_meta::Memory;
use std::alloc::Global;

/// Bytes on one line: letters as they are, a line feed as `|n`, and any other byte by its digits.
pub fn push_bytes(alloc: Global, shown: &mut String, bytes: &[u8]) -> Result<(), Memory> {
    if bytes.len() > 400 {
        let count = bytes.len();
        return shown.push_str(format!(in alloc; "{count} bytes")?.as_str());
    }
    if bytes.is_empty() {
        return shown.push_str("nothing");
    }
    for byte in bytes {
        match byte {
            b'\n' => shown.push_str("|n")?,
            b' '..=b'~' => shown.push(*byte as char)?,
            _ => shown.push_str(format!(in alloc; "|x{byte:02x}")?.as_str())?,
        }
    }
    Ok(())
}

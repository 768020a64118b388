//! The input, taken to its end or to as many bytes as may be needed of it.
ghost use Rattle.std.specs.Prelude.{◌≡◌, ◌≢◌, ◌+◌, ◌<◌, ◌≤◌, ℕ, List, length, take, Some, Err, IfOk, OnOk};
ghost use Rattle.backend_files.specs.WholeFile.{IsWhole};
ghost use Rattle.kdb_outside.specs.Faults.{HasRisen};
ghost use Rattle.tool_single.specs.Input.{most_taken, taken, TakesAll, TakesFront, TakesPiece, TakesSome};

use crate::answers::Stop;
use backend_files::{FileRead, LONGEST_FILE};
use kdb_outside::Source;
use key_meta::List;
use std::alloc::Global;

/// The most bytes that are taken at once.
const LONGEST_PIECE: usize = 65536;
/// The most bytes that an import takes.
const MOST_TAKEN: usize = LONGEST_FILE as usize + 1;

/// What the input gives, as a file does: its bytes, or the number of those that were taken where they are too many.
pub fn read_input<S: Source>(alloc: Global, input: &mut S) -> Result<FileRead, Stop>
    ensures told { (bytes : List ℕ) → S.left input.old ≡ Some bytes → IfOk result (IsWhole (taken bytes)) }
    ensures front { (bytes : List ℕ) → S.left input.old ≡ Some bytes → TakesFront most_taken bytes (S.left input.new) }
    ensures all { (bytes : List ℕ) → S.left input.old ≡ Some bytes
        → OnOk result (TakesAll most_taken bytes (S.left input.new)) }
    ensures cause { result ≡ Err Stop.ReadFault → HasRisen (S.faults input.old) (S.faults input.new) }
    ensures own { result ≢ Err Stop.DiskFault }
    ensures later { S.faults input.old ≤ S.faults input.new }
{
    let bytes = take_all(alloc, input, MOST_TAKEN)?;
    if bytes.len() as u64 > LONGEST_FILE {
        return Ok(FileRead::TooLong {
            bytes: bytes.len() as u64,
        });
    }
    Ok(FileRead::Bytes(List::from_vec(bytes)))
}

/// Takes the input to its end, or to so many bytes.
pub fn take_all<S: Source>(alloc: Global, input: &mut S, most: usize) -> Result<Vec<u8>, Stop>
    ensures taken { (bytes : List ℕ) → S.left input.old ≡ Some bytes
        → IfOk result (λ given. given.items ≡ take most bytes) }
    ensures few { IfOk result (λ given. length given.items ≤ most) }
    ensures front { (bytes : List ℕ) → S.left input.old ≡ Some bytes → TakesFront most bytes (S.left input.new) }
    ensures all { (bytes : List ℕ) → S.left input.old ≡ Some bytes
        → OnOk result (TakesAll most bytes (S.left input.new)) }
    ensures cause { result ≡ Err Stop.ReadFault → HasRisen (S.faults input.old) (S.faults input.new) }
    ensures own { result ≢ Err Stop.DiskFault }
    ensures later { S.faults input.old ≤ S.faults input.new }
{
    let mut bytes = Vec::new(alloc);
    while bytes.len() < most {
        if take_piece(alloc, input, most, &mut bytes)? == 0 {
            return Ok(bytes);
        }
    }
    Ok(bytes)
}

/// Takes a piece of the input behind the bytes so far, and answers its length. It is empty only at the end.
fn take_piece<S: Source>(
    alloc: Global,
    input: &mut S,
    most: usize,
    bytes: &mut Vec<u8>,
) -> Result<usize, Stop>
    requires { length bytes.old.items < most }
    ensures count { IfOk result (λ n. length bytes.new.items ≡ length bytes.old.items + n) }
    ensures few { OnOk result (length bytes.new.items ≤ most) }
    ensures moved { (left : List ℕ) → S.left input.old ≡ Some left
        → IfOk result (λ n. TakesPiece left bytes.old.items bytes.new.items n (S.left input.new)) }
    ensures front { (left : List ℕ) → S.left input.old ≡ Some left
        → TakesSome most (length bytes.old.items) left (S.left input.new) }
    ensures cause { result ≡ Err Stop.ReadFault → HasRisen (S.faults input.old) (S.faults input.new) }
    ensures own { result ≢ Err Stop.DiskFault }
    ensures later { S.faults input.old ≤ S.faults input.new }
{
    let room = (most - bytes.len()).min(LONGEST_PIECE);
    let mut piece = vec![in alloc; 0u8; room]?;
    match input.take(&mut piece) {
        Ok(count) => {
            bytes.extend_from_slice(&piece[..count])?;
            Ok(count)
        }
        Err(_) => Err(Stop::ReadFault),
    }
}

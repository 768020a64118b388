//! What a crash leaves of a write or a cut, as a number chooses.
ghost use Rattle.std.specs.Prelude.{◌≡◌, ◌+◌, ◌<◌, ◌≤◌, ◌^◌, ◌++◌, length, drop, replicate, slice_index_or, IfOk};
ghost use Rattle.kdb_outside.specs.Files.{written};
ghost use Rattle.disk_memory.specs.Choices.{drawn, way, torn_byte, torn_bytes, kept_of_write, kept_of_cut, left_of_write, cut_by_way};

use crate::places;
use kdb_outside::Memory;
use std::alloc::Global;

/// How a crash leaves a step.
#[derive(Clone, Copy)]
pub(crate) enum Way {
    Out,
    Whole,
    Torn,
}

/// Chooses what is left of a step: 0 leaves it out, 1 leaves it whole, any other number leaves it in one of all ways.
#[derive(Clone, Copy)]
pub(crate) struct Choice {
    pub(crate) number: u64,
    pub(crate) step: u64,
}

impl Choice {
    /// A number for a place, which looks random.
    fn at(&self, place: usize) -> u64
        ensures { result ≡ drawn self.now place }
    {
        let place = (place as u64).wrapping_add(self.step.wrapping_mul(1_000_003));
        let mixed = (self.number ^ place.wrapping_mul(0x9E37_79B9_7F4A_7C15)).wrapping_mul(
            0xBF58_476D_1CE4_E5B9,
        );
        mixed ^ (mixed >> 31)
    }

    fn way(&self) -> Way
        ensures { result ≡ way self.now }
    {
        match self.number {
            0 => Way::Out,
            1 => Way::Whole,
            _ => match self.at(usize::MAX) % 4 {
                0 => Way::Out,
                1 => Way::Whole,
                _ => Way::Torn,
            },
        }
    }

    /// How many bytes of a torn write are there.
    fn kept_of_write(&self, at: usize, bytes: &[u8], content: &[u8]) -> usize
        requires { at ≤ length content.now }
        ensures { result ≡ kept_of_write self.now at (length bytes.now) (length content.now) }
    {
        let end = at + bytes.len();
        let lengths = end.saturating_sub(content.len()) as u64 + 1;
        let gone = (self.at(end) % lengths) as usize;
        bytes.len().saturating_sub(gone)
    }

    /// How many of the bytes that a torn cut takes off are there.
    fn kept_of_cut(&self, new_length: usize, content: &[u8]) -> usize
        ensures { result ≡ kept_of_cut self.now new_length (length content.now) }
    {
        let lengths = content.len().saturating_sub(new_length) as u64 + 1;
        (self.at(new_length) % lengths) as usize
    }
}

/// A byte of a torn write: the former one, the written one or any other. One that was written over with itself stays.
fn torn_byte(number: u64, former: u8, written: u8) -> u8
    ensures { result ≡ torn_byte number former written }
{
    if former == written {
        return former;
    }
    match number % 3 {
        0 => former,
        1 => written,
        _ => (number / 3 % 256) as u8,
    }
}

/// Bytes that are torn from a place on over the former ones.
fn torn_bytes(
    alloc: Global,
    choice: Choice,
    place: usize,
    former: &[u8],
    bytes: &[u8],
) -> Result<Vec<u8>, Memory>
    requires { place + length bytes.now < 2 ^ 64 }
    ensures { IfOk result (λ torn. torn.items ≡ torn_bytes choice place former.now bytes.now) }
{
    let mut torn = Vec::new(alloc);
    for (i, byte) in bytes.iter().enumerate() {
        let number = choice.at(place + i);
        torn.push(torn_byte(number, byte_at(former, i), *byte))?;
    }
    Ok(torn)
}

/// The byte at a place, and 0 where there is none.
fn byte_at(bytes: &[u8], place: usize) -> u8
    ensures { result ≡ slice_index_or bytes.now place 0 }
{
    if place < bytes.len() { bytes[place] } else { 0 }
}

/// What a crash leaves of a write. A content that ends before the write's place stays as it is.
pub(crate) fn torn_write(
    alloc: Global,
    choice: Choice,
    content: &[u8],
    at: usize,
    bytes: &[u8],
) -> Result<Vec<u8>, Memory>
    ensures { IfOk result (λ left. left.items ≡ left_of_write choice at bytes.now content.now) }
{
    if at > content.len() {
        return Vec::from_slice(alloc, content);
    }
    match choice.way() {
        Way::Out => Vec::from_slice(alloc, content),
        Way::Whole => overwritten(alloc, content, at, bytes),
        Way::Torn => {
            let kept = choice.kept_of_write(at, bytes, content);
            let piece = torn_bytes(alloc, choice, at, &content[at..], &bytes[..kept])?;
            overwritten(alloc, content, at, &piece)
        }
    }
}

/// A content with a piece written at a place.
fn overwritten(alloc: Global, content: &[u8], at: usize, piece: &[u8]) -> Result<Vec<u8>, Memory>
    requires { at ≤ length content.now }
    ensures { IfOk result (λ left. left.items ≡ written content.now at piece.now) }
{
    let mut left = Vec::from_slice(alloc, content)?;
    places::write(&mut left, at, piece)?;
    Ok(left)
}

/// The end that a torn cut leaves of a content: a part of what it would take off, torn as by a write of zeros.
fn torn_end(
    alloc: Global,
    choice: Choice,
    content: &[u8],
    new_length: usize,
) -> Result<Vec<u8>, Memory>
    ensures { IfOk result (λ end. end.items ≡ torn_bytes choice new_length (drop new_length content.now) (replicate (kept_of_cut choice new_length (length content.now)) 0)) }
{
    let kept = choice.kept_of_cut(new_length, content);
    let zeros = vec![in alloc; 0; kept]?;
    let cut_off = &content[new_length.min(content.len())..];
    torn_bytes(alloc, choice, new_length, cut_off, &zeros)
}

/// What a crash leaves of a cut.
pub(crate) fn torn_cut(
    alloc: Global,
    choice: Choice,
    content: &[u8],
    new_length: usize,
) -> Result<Vec<u8>, Memory>
    ensures { IfOk result (λ left. left.items ≡ cut_by_way (way choice) choice new_length content.now) }
{
    let front = &content[..new_length.min(content.len())];
    match choice.way() {
        Way::Out => Vec::from_slice(alloc, content),
        Way::Whole => Vec::from_slice(alloc, front),
        Way::Torn => {
            let end = torn_end(alloc, choice, content, new_length)?;
            joined(alloc, front, &end)
        }
    }
}

fn joined(alloc: Global, front: &[u8], end: &[u8]) -> Result<Vec<u8>, Memory>
    ensures { IfOk result (λ both. both.items ≡ front.now ++ end.now) }
{
    let mut both = Vec::from_slice(alloc, front)?;
    both.extend_from_slice(end)?;
    Ok(both)
}

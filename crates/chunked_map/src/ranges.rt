//! Chunks by the places of their entries in the order of all keys.
ghost use Rattle.std.specs.Prelude.{◌≡◌, ◌+◌, ◌<◌, ◌≤◌, [], length, take, drop, IfOk, OnOk, OnErr, slice_range, slice_index_or};
ghost use Rattle.std.specs.List.{remove_range};
ghost use Rattle.chunked_map.specs.Chunks.{joined, AreChunks};

use crate::Copied;
use crate::chunks::split_in;
use crate::shared::Chunk;
use std::alloc::AllocError;

/// In which chunk a place is, and at which place in that chunk. The place behind all entries is in none.
pub fn place_in<K: Ord, V>(chunks: &[Chunk<K, V>], place: usize) -> (usize, usize)
    requires chunks { AreChunks K.cmp chunks.now }
    requires bounds { place ≤ length (joined chunks.now) }
    ensures within { result.0 ≤ length chunks.now }
    ensures place { length (joined (take result.0 chunks.now)) + result.1 ≡ place }
    ensures inside { result.0 < length chunks.now → result.1 < length (slice_index_or chunks.now result.0 []) }
    ensures behind { length chunks.now ≤ result.0 → result.1 ≡ 0 }
{
    let mut left = place;
    for at in 0..chunks.len() {
        let len = chunks[at].len();
        if left < len {
            return (at, left);
        }
        left -= len;
    }
    (chunks.len(), left)
}

/// The entries of a chunk from a place on.
pub fn entries_from<K: Ord, V>(chunk: &Chunk<K, V>, place: usize) -> &[(K, V)]
    requires { place ≤ length chunk.now }
    ensures { result.now ≡ drop place chunk.now }
{
    &chunk.entries()[place..]
}

/// The chunks from a place on.
pub fn chunks_from<K: Ord, V>(chunks: &[Chunk<K, V>], place: usize) -> &[Chunk<K, V>]
    requires { place ≤ length chunks.now }
    ensures { result.now ≡ drop place chunks.now }
{
    &chunks[place..]
}

/// The chunk that begins at a place. One in which the place stands behind others is cut in two there.
pub fn boundary<K: Ord + Drop, V: Copied<K> + Drop>(
    chunks: &mut Vec<Chunk<K, V>>,
    place: usize,
) -> Result<usize, AllocError>
    requires chunks { AreChunks K.cmp chunks.old.items }
    requires bounds { place ≤ length (joined chunks.old.items) }
    ensures same { joined chunks.new.items ≡ joined chunks.old.items }
    ensures chunks { AreChunks K.cmp chunks.new.items }
    ensures within { IfOk result (λ at. at ≤ length chunks.new.items) }
    ensures begins { IfOk result (λ at. length (joined (take at chunks.new.items)) ≡ place) }
    ensures front { (m : _) → m ≤ length chunks.old.items → length (joined (take m chunks.old.items)) ≤ place
        → take m chunks.new.items ≡ take m chunks.old.items }
{
    let (at, left) = place_in(chunks, place);
    if left == 0 {
        return Ok(at);
    }
    split_in(chunks, at, left)?;
    Ok(at + 1)
}

/// Takes out the chunks between two places, and answers them. Their memory is taken first.
pub fn take_chunks<K: Ord + Drop, V: Copied<K> + Drop>(
    chunks: &mut Vec<Chunk<K, V>>,
    from: usize,
    to: usize,
) -> Result<Vec<Chunk<K, V>>, AllocError>
    requires chunks { AreChunks K.cmp chunks.old.items }
    requires order { from ≤ to }
    requires bounds { to ≤ length (joined chunks.old.items) }
    ensures taken { IfOk result (λ taken. joined taken.items ≡ slice_range (joined chunks.old.items) from to) }
    ensures taken_chunks { IfOk result (λ taken. AreChunks K.cmp taken.items) }
    ensures ok { OnOk result (joined chunks.new.items ≡ remove_range (joined chunks.old.items) from to) }
    ensures err { OnErr result (joined chunks.new.items ≡ joined chunks.old.items) }
    ensures chunks { AreChunks K.cmp chunks.new.items }
{
    let begin = boundary(chunks, from)?;
    let end = boundary(chunks, to)?;
    move_out(chunks, begin, end)
}

/// Moves the elements from one place up to another into a vector of their own. Its memory is taken first.
pub fn move_out<T: Drop>(items: &mut Vec<T>, from: usize, to: usize) -> Result<Vec<T>, AllocError>
    requires order { from ≤ to }
    requires bounds { to ≤ length items.old.items }
    ensures taken { IfOk result (λ taken. taken.items ≡ slice_range items.old.items from to) }
    ensures ok { OnOk result (items.new.items ≡ remove_range items.old.items from to) }
    ensures err { OnErr result (items.new.items ≡ items.old.items) }
{
    let mut taken = Vec::with_capacity(*items.allocator(), to - from)?;
    for item in items.drain(from..to) {
        taken.push_reserved(item);
    }
    Ok(taken)
}

//! Chunks of entries: where a key belongs among them, and what changes one of them.
ghost use Rattle.std.specs.Prelude.{◌≡◌, ◌+◌, ◌^◌, ◌<◌, ◌≤◌, ◌++◌, [], T, Some, length, take, drop, not, IfOk, IfErr, OnOk, OnErr, slice_index_or};
ghost use Rattle.std.specs.FinMap.{find, is_sorted};
ghost use Rattle.std.specs.FinMap.Entries.{below_all, put, where_key};
ghost use Rattle.std.specs.Ordering.{eq_by_cmp};
ghost use Rattle.sorted_map.specs.Place.{IsPlace, IsGap};
ghost use Rattle.chunked_map.specs.Chunks.{joined, AreChunks, all_before, none_before, IsChunkOf, parted};

use crate::Copied;
use crate::shared::Chunk;
use std::alloc::AllocError;

/// The most entries that a chunk has.
pub const CHUNK_SIZE: usize = 64;

/// The most chunks: so many that their entries can be counted.
const MOST_CHUNKS: usize = 1 << 57;

/// All keys of a chunk are before a key.
fn is_past<K: Ord, V>(chunk: &Chunk<K, V>, key: &K) -> bool
    ensures yes { T result → T (all_before K.cmp key.now chunk.now) }
    ensures no { T (not result) → (behind : _) → T (is_sorted K.cmp (chunk.now ++ behind))
        → T (below_all K.cmp key.now behind) }
{
    match chunk.entries().last() {
        Some(last) => last.0.cmp(key).is_lt(),
        None => true,
    }
}

/// The first chunk that is not before a key. It stands behind all of them where there is none.
pub fn chunk_of<K: Ord, V>(chunks: &[Chunk<K, V>], key: &K) -> usize
    requires { AreChunks K.cmp chunks.now }
    ensures { IsChunkOf K.cmp chunks.now key.now result }
{
    let mut low = 0;
    let mut high = chunks.len();
    while low < high {
        let middle = low + (high - low) / 2;
        if is_past(&chunks[middle], key) {
            low = middle + 1;
        } else {
            high = middle;
        }
    }
    low
}

/// Puts a key that is behind all chunks into a chunk of its own. One behind others gets its room at once: they were
/// filled, so it may be, too.
fn open_chunk<K: Ord + Drop, V: Copied<K> + Drop>(
    chunks: &mut Vec<Chunk<K, V>>,
    key: K,
    value: V,
) -> Result<(), AllocError>
    requires chunks { AreChunks K.cmp chunks.old.items }
    requires behind { IsChunkOf K.cmp chunks.old.items key (length chunks.old.items) }
    ensures ok { OnOk result (joined chunks.new.items ≡ put K.cmp key value (joined chunks.old.items)) }
    ensures err { OnErr result (chunks.new.items ≡ chunks.old.items) }
    ensures chunks { AreChunks K.cmp chunks.new.items }
{
    if chunks.len() >= MOST_CHUNKS {
        return Err(AllocError);
    }
    let alloc = *chunks.allocator();
    let room = if chunks.len() == 0 { 1 } else { CHUNK_SIZE };
    let mut entries = Vec::with_capacity(alloc, room)?;
    entries.push((key, value))?;
    let chunk = Chunk::of(alloc, entries)?;
    chunks.push(chunk)?;
    Ok(())
}

/// Cuts a chunk in two, behind its first n entries. Its memory is taken first.
pub fn split_in<K: Ord + Drop, V: Copied<K> + Drop>(
    chunks: &mut Vec<Chunk<K, V>>,
    at: usize,
    n: usize,
) -> Result<(), AllocError>
    requires within { at < length chunks.old.items }
    requires inside { n ≤ length (slice_index_or chunks.old.items at []) }
    ensures ok { OnOk result (chunks.new.items ≡ parted chunks.old.items at n) }
    ensures err { OnErr result (chunks.new.items ≡ chunks.old.items) }
    ensures count { OnOk result (length chunks.old.items < 2 ^ 57) }
{
    if chunks.len() >= MOST_CHUNKS {
        return Err(AllocError);
    }
    chunks.reserve(1)?;
    let len = chunks[at].len();
    let back = chunks[at].take_range(n, len)?;
    match chunks.insert(at + 1, back) {
        Ok(()) => Ok(()),
        Err(_) => unreachable!(),
    }
}

/// The value at a place in a chunk.
pub fn value_in<K: Ord, V>(chunks: &[Chunk<K, V>], at: usize, place: usize) -> &V
    requires within { at < length chunks.now }
    requires inside { place < length (slice_index_or chunks.now at []) }
    ensures { (d : _) → result.now ≡ (slice_index_or (slice_index_or chunks.now at []) place d).1 }
{
    &chunks[at].entries()[place].1
}

/// Gives a key a value where the search for it ended.
pub fn put_at<K: Ord + Drop, V: Copied<K> + Drop>(
    chunks: &mut Vec<Chunk<K, V>>,
    at: usize,
    place: Result<usize, usize>,
    key: K,
    value: V,
) -> Result<Option<V>, AllocError>
    requires chunks { AreChunks K.cmp chunks.old.items }
    requires home { IsChunkOf K.cmp chunks.old.items key at }
    requires within { IfOk place (λ place. at < length chunks.old.items) }
    requires there { IfOk place (λ place. IsPlace K.cmp (slice_index_or chunks.old.items at []) key place) }
    requires missing { IfErr place (λ place. at < length chunks.old.items → IsGap K.cmp (slice_index_or chunks.old.items at []) key place) }
    ensures former { IfOk result (λ former. former ≡ find K.cmp key (joined chunks.old.items)) }
    ensures ok { OnOk result (joined chunks.new.items ≡ put K.cmp key value (joined chunks.old.items)) }
    ensures err { OnErr result (joined chunks.new.items ≡ joined chunks.old.items) }
    ensures chunks { AreChunks K.cmp chunks.new.items }
{
    match place {
        Ok(place) => Ok(Some(replace_in(chunks, at, place, key, value)?)),
        Err(place) => {
            if at < chunks.len() {
                put_in(chunks, at, place, key, value)?;
            } else {
                put_behind(chunks, key, value)?;
            }
            Ok(None)
        }
    }
}

/// Makes room in a chunk for a key that is to stand at a place in it, and answers in which chunk and at which place it
/// is to stand then.
fn room_in<K: Ord + Drop, V: Copied<K> + Drop>(
    chunks: &mut Vec<Chunk<K, V>>,
    at: usize,
    place: usize,
) -> Result<(usize, usize), AllocError>
    requires chunks { AreChunks K.cmp chunks.old.items }
    requires within { at < length chunks.old.items }
    ensures same { joined chunks.new.items ≡ joined chunks.old.items }
    ensures chunks { AreChunks K.cmp chunks.new.items }
    ensures within { IfOk result (λ spot. spot.0 < length chunks.new.items) }
    ensures home { IfOk result (λ spot. (key : K) → IsChunkOf K.cmp chunks.old.items key at → IsGap K.cmp (slice_index_or chunks.old.items at []) key place → IsChunkOf K.cmp chunks.new.items key spot.0) }
    ensures gap { IfOk result (λ spot. (key : K) → IsGap K.cmp (slice_index_or chunks.old.items at []) key place → IsGap K.cmp (slice_index_or chunks.new.items spot.0 []) key spot.1) }
    ensures room { IfOk result (λ spot. length (slice_index_or chunks.new.items spot.0 []) < 64) }
{
    if chunks[at].len() < CHUNK_SIZE {
        return Ok((at, place));
    }
    split_in(chunks, at, CHUNK_SIZE / 2)?;
    if place > CHUNK_SIZE / 2 {
        return Ok((at + 1, place - CHUNK_SIZE / 2));
    }
    Ok((at, place))
}

/// Puts a key that no entry has into its gap in its chunk. A full chunk is cut in two before.
fn put_in<K: Ord + Drop, V: Copied<K> + Drop>(
    chunks: &mut Vec<Chunk<K, V>>,
    at: usize,
    place: usize,
    key: K,
    value: V,
) -> Result<(), AllocError>
    requires chunks { AreChunks K.cmp chunks.old.items }
    requires within { at < length chunks.old.items }
    requires home { IsChunkOf K.cmp chunks.old.items key at }
    requires gap { IsGap K.cmp (slice_index_or chunks.old.items at []) key place }
    ensures ok { OnOk result (joined chunks.new.items ≡ put K.cmp key value (joined chunks.old.items)) }
    ensures err { OnErr result (joined chunks.new.items ≡ joined chunks.old.items) }
    ensures chunks { AreChunks K.cmp chunks.new.items }
{
    let (at, place) = room_in(chunks, at, place)?;
    put_here(chunks, at, place, key, value)
}

/// Puts a key that no entry has into its gap in its chunk, which has room for it.
fn put_here<K: Ord + Drop, V: Copied<K> + Drop>(
    chunks: &mut Vec<Chunk<K, V>>,
    at: usize,
    place: usize,
    key: K,
    value: V,
) -> Result<(), AllocError>
    requires chunks { AreChunks K.cmp chunks.old.items }
    requires within { at < length chunks.old.items }
    requires home { IsChunkOf K.cmp chunks.old.items key at }
    requires gap { IsGap K.cmp (slice_index_or chunks.old.items at []) key place }
    requires room { length (slice_index_or chunks.old.items at []) < 64 }
    ensures ok { OnOk result (joined chunks.new.items ≡ put K.cmp key value (joined chunks.old.items)) }
    ensures err { OnErr result (chunks.new.items ≡ chunks.old.items) }
    ensures chunks { AreChunks K.cmp chunks.new.items }
{
    chunks[at].insert_at(place, key, value)
}

/// Puts a key that is behind all chunks at the end of the last one, or into one of its own where that is full.
fn put_behind<K: Ord + Drop, V: Copied<K> + Drop>(
    chunks: &mut Vec<Chunk<K, V>>,
    key: K,
    value: V,
) -> Result<(), AllocError>
    requires chunks { AreChunks K.cmp chunks.old.items }
    requires behind { IsChunkOf K.cmp chunks.old.items key (length chunks.old.items) }
    ensures ok { OnOk result (joined chunks.new.items ≡ put K.cmp key value (joined chunks.old.items)) }
    ensures err { OnErr result (joined chunks.new.items ≡ joined chunks.old.items) }
    ensures chunks { AreChunks K.cmp chunks.new.items }
{
    let len = chunks.len();
    if len == 0 || chunks[len - 1].len() >= CHUNK_SIZE {
        return open_chunk(chunks, key, value);
    }
    let end = chunks[len - 1].len();
    put_here(chunks, len - 1, end, key, value)
}

/// Gives a key at its place in its chunk another value, and answers the one that it had. The key passed in is dropped.
fn replace_in<K: Ord + Drop, V: Copied<K> + Drop>(
    chunks: &mut Vec<Chunk<K, V>>,
    at: usize,
    place: usize,
    key: K,
    value: V,
) -> Result<V, AllocError>
    requires chunks { AreChunks K.cmp chunks.old.items }
    requires within { at < length chunks.old.items }
    requires home { IsChunkOf K.cmp chunks.old.items key at }
    requires there { IsPlace K.cmp (slice_index_or chunks.old.items at []) key place }
    ensures former { IfOk result (λ former. Some former ≡ find K.cmp key (joined chunks.old.items)) }
    ensures ok { OnOk result (joined chunks.new.items ≡ put K.cmp key value (joined chunks.old.items)) }
    ensures err { OnErr result (chunks.new.items ≡ chunks.old.items) }
    ensures chunks { AreChunks K.cmp chunks.new.items }
{
    let _ = key;
    chunks[at].replace_at(place, value)
}

/// Takes the key at a place out of its chunk, and the chunk out where nothing is left of it.
pub fn remove_in<K: Ord + Drop, V: Copied<K> + Drop>(
    chunks: &mut Vec<Chunk<K, V>>,
    at: usize,
    place: usize,
    key: &K,
) -> Result<V, AllocError>
    requires chunks { AreChunks K.cmp chunks.old.items }
    requires within { at < length chunks.old.items }
    requires home { IsChunkOf K.cmp chunks.old.items key.now at }
    requires place { IsPlace K.cmp (slice_index_or chunks.old.items at []) key.now place }
    ensures former { IfOk result (λ former. Some former ≡ find K.cmp key.now (joined chunks.old.items)) }
    ensures ok { OnOk result (joined chunks.new.items ≡ where_key K.cmp (λ k. not (eq_by_cmp K.cmp key.now k)) (joined chunks.old.items)) }
    ensures err { OnErr result (chunks.new.items ≡ chunks.old.items) }
    ensures chunks { AreChunks K.cmp chunks.new.items }
{
    let former = chunks[at].remove_at(place)?;
    if chunks[at].len() == 0 {
        chunks.remove(at);
        return Ok(former);
    }
    Ok(former)
}

/// How many entries have a key before another one, whose chunk is known.
pub fn before_in<K: Ord, V>(chunks: &[Chunk<K, V>], at: usize, key: &K) -> usize
    requires chunks { AreChunks K.cmp chunks.now }
    requires place { IsChunkOf K.cmp chunks.now key.now at }
    ensures bounds { result ≤ length (joined chunks.now) }
    ensures before { T (all_before K.cmp key.now (take result (joined chunks.now))) }
    ensures behind { T (none_before K.cmp key.now (drop result (joined chunks.now))) }
{
    let front = count_in(&chunks[..at]);
    if at < chunks.len() {
        front + before_here(chunks[at].entries(), key)
    } else {
        front
    }
}

/// How many of some entries have a key before another one.
fn before_here<K: Ord, V>(entries: &[(K, V)], key: &K) -> usize
    requires { T (is_sorted K.cmp entries.now) }
    ensures bounds { result ≤ length entries.now }
    ensures before { T (all_before K.cmp key.now (take result entries.now)) }
    ensures behind { T (none_before K.cmp key.now (drop result entries.now)) }
{
    let mut low = 0;
    let mut high = entries.len();
    while low < high {
        let middle = low + (high - low) / 2;
        if entries[middle].0.cmp(key).is_lt() {
            low = middle + 1;
        } else {
            high = middle;
        }
    }
    low
}

/// How many entries the chunks have together.
pub fn count_in<K: Ord, V>(chunks: &[Chunk<K, V>]) -> usize
    requires { AreChunks K.cmp chunks.now }
    ensures { result ≡ length (joined chunks.now) }
{
    let mut count = 0;
    for chunk in chunks {
        count += chunk.len();
    }
    count
}

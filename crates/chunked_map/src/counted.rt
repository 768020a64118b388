//! The search for a key, with its comparisons counted.
ghost use Rattle.std.specs.Prelude.{◌≡◌, ◌+◌, ◌-◌, ◌*◌, ◌^◌, ◌<◌, ◌≤◌, [], T, length, IfOk, IfErr, IfSome, IfNone, slice_index_or};
ghost use Rattle.std.specs.FinMap.{is_sorted};
ghost use Rattle.sorted_map.specs.Place.{IsPlace, IsGap};
ghost use Rattle.chunked_map.specs.Chunks.{joined, AreChunks, IsChunkOf, IsBeforeLast};

use crate::shared::Chunk;
use std::cmp::Ordering;
use std::marker::Brand;
use std::sync::ledger::{Blank, Ledger};
use step_count::{Steps, compare_counted};

/// In which chunk a key stands, and where in it, or would stand. A key behind all chunks would stand in none. The last
/// key is looked at first, since keys mostly come in their order. For n entries it takes s comparisons with 2^s ≤ 128
/// (2n + 1).
pub fn search_counted<K: Ord, V, L: Ledger>(
    chunks: &[Chunk<K, V>],
    key: &K,
    steps: &mut Steps<L>,
) -> (usize, Result<usize, usize>)
    requires { AreChunks K.cmp chunks.now }
    ensures home { IsChunkOf K.cmp chunks.now key.now result.0 }
    ensures within { IfOk result.1 (λ place. result.0 < length chunks.now) }
    ensures there { IfOk result.1 (λ place. IsPlace K.cmp (slice_index_or chunks.now result.0 []) key.now place) }
    ensures missing { IfErr result.1 (λ place. result.0 < length chunks.now → IsGap K.cmp (slice_index_or chunks.now result.0 []) key.now place) }
    ensures more { steps.old ≤ steps.new }
    ensures cost { 2 ^ (steps.new - steps.old) ≤ 128 * (2 * length (joined chunks.now) + 1) }
{
    if chunks.is_empty() {
        return (0, Err(0));
    }
    match look_at_last(chunks, key, steps) {
        Some(spot) => spot,
        None => search_before(chunks, key, steps),
    }
}

/// The search for a caller that counts nothing.
pub fn search<K: Ord, V>(chunks: &[Chunk<K, V>], key: &K) -> (usize, Result<usize, usize>)
    requires { AreChunks K.cmp chunks.now }
    ensures home { IsChunkOf K.cmp chunks.now key.now result.0 }
    ensures within { IfOk result.1 (λ place. result.0 < length chunks.now) }
    ensures there { IfOk result.1 (λ place. IsPlace K.cmp (slice_index_or chunks.now result.0 []) key.now place) }
    ensures missing { IfErr result.1 (λ place. result.0 < length chunks.now → IsGap K.cmp (slice_index_or chunks.now result.0 []) key.now place) }
{
    search_from::<K, V, Brand>(chunks, key, Blank::new(1))
}

/// The search with a count of its own. A key that is before the last one is compared with the first, since keys may
/// come against their order. That is a comparison more than what a search takes that is counted.
fn search_from<K: Ord, V, L: Ledger>(
    chunks: &[Chunk<K, V>],
    key: &K,
    blank: Blank,
) -> (usize, Result<usize, usize>)
    requires chunks { AreChunks K.cmp chunks.now }
    requires name { blank.name ≡ L.name }
    requires parts { blank.parts ≡ L.parts }
    requires some { 0 < blank.parts }
    ensures home { IsChunkOf K.cmp chunks.now key.now result.0 }
    ensures within { IfOk result.1 (λ place. result.0 < length chunks.now) }
    ensures there { IfOk result.1 (λ place. IsPlace K.cmp (slice_index_or chunks.now result.0 []) key.now place) }
    ensures missing { IfErr result.1 (λ place. result.0 < length chunks.now → IsGap K.cmp (slice_index_or chunks.now result.0 []) key.now place) }
{
    if chunks.is_empty() {
        return (0, Err(0));
    }
    let mut steps = Steps::<L>::none(blank);
    match look_at_last(chunks, key, &mut steps) {
        Some(spot) => spot,
        None => {
            if is_before_all(chunks, key) {
                return (0, Err(0));
            }
            search_before(chunks, key, &mut steps)
        }
    }
}

/// Where a key stands that is the last one, or would stand that is behind it. Nothing for a key that is before it.
fn look_at_last<K: Ord, V, L: Ledger>(
    chunks: &[Chunk<K, V>],
    key: &K,
    steps: &mut Steps<L>,
) -> Option<(usize, Result<usize, usize>)>
    requires chunks { AreChunks K.cmp chunks.now }
    requires some { 0 < length chunks.now }
    ensures home { IfSome result (λ spot. IsChunkOf K.cmp chunks.now key.now spot.0) }
    ensures within { IfSome result (λ spot. IfOk spot.1 (λ place. spot.0 < length chunks.now)) }
    ensures there { IfSome result (λ spot. IfOk spot.1 (λ place. IsPlace K.cmp (slice_index_or chunks.now spot.0 []) key.now place)) }
    ensures missing { IfSome result (λ spot. IfErr spot.1 (λ place. spot.0 < length chunks.now → IsGap K.cmp (slice_index_or chunks.now spot.0 []) key.now place)) }
    ensures late { IfNone result (IsBeforeLast K.cmp key.now (slice_index_or chunks.now (length chunks.now - 1) [])) }
    ensures step { steps.new ≡ steps.old + 1 }
{
    let len = chunks.len();
    match last_counted(&chunks[len - 1], key, steps) {
        Ordering::Less => Some((len, Err(0))),
        Ordering::Equal => Some((len - 1, Ok(chunks[len - 1].len() - 1))),
        Ordering::Greater => None,
    }
}

/// How the last key of a chunk compares with a key.
fn last_counted<K: Ord, V, L: Ledger>(
    chunk: &Chunk<K, V>,
    key: &K,
    steps: &mut Steps<L>,
) -> Ordering
    requires { 0 < length chunk.now }
    ensures order { (d : _) → K.cmp (slice_index_or chunk.now (length chunk.now - 1) d).0 key.now ≡ result }
    ensures step { steps.new ≡ steps.old + 1 }
{
    let entries = chunk.entries();
    compare_counted(&entries[entries.len() - 1].0, key, steps)
}

/// Whether a key is before the first one.
fn is_before_all<K: Ord, V>(chunks: &[Chunk<K, V>], key: &K) -> bool
    requires chunks { AreChunks K.cmp chunks.now }
    requires some { 0 < length chunks.now }
    ensures home { T result → IsChunkOf K.cmp chunks.now key.now 0 }
    ensures gap { T result → IsGap K.cmp (slice_index_or chunks.now 0 []) key.now 0 }
{
    match chunks[0].entries()[0].0.cmp(key) {
        Ordering::Greater => true,
        Ordering::Less | Ordering::Equal => false,
    }
}

/// The search for a key that is before the last one.
fn search_before<K: Ord, V, L: Ledger>(
    chunks: &[Chunk<K, V>],
    key: &K,
    steps: &mut Steps<L>,
) -> (usize, Result<usize, usize>)
    requires chunks { AreChunks K.cmp chunks.now }
    requires some { 0 < length chunks.now }
    requires late { IsBeforeLast K.cmp key.now (slice_index_or chunks.now (length chunks.now - 1) []) }
    ensures home { IsChunkOf K.cmp chunks.now key.now result.0 }
    ensures within { result.0 < length chunks.now }
    ensures there { IfOk result.1 (λ place. IsPlace K.cmp (slice_index_or chunks.now result.0 []) key.now place) }
    ensures missing { IfErr result.1 (λ place. IsGap K.cmp (slice_index_or chunks.now result.0 []) key.now place) }
    ensures more { steps.old ≤ steps.new }
    ensures cost { 2 ^ (steps.new - steps.old) ≤ 64 * (2 * (length chunks.now - 1) + 1) }
{
    let mut low = 0;
    let mut high = chunks.len() - 1;
    while low < high {
        let middle = low + (high - low) / 2;
        match last_counted(&chunks[middle], key, steps) {
            Ordering::Less => low = middle + 1,
            Ordering::Equal => return (middle, Ok(chunks[middle].len() - 1)),
            Ordering::Greater => high = middle,
        }
    }
    (low, place_counted(chunks[low].entries(), key, steps))
}

/// Where a key that is before the last of some entries stands among them, or would stand.
fn place_counted<K: Ord, V, L: Ledger>(
    entries: &[(K, V)],
    key: &K,
    steps: &mut Steps<L>,
) -> Result<usize, usize>
    requires sorted { T (is_sorted K.cmp entries.now) }
    requires some { 0 < length entries.now }
    requires late { IsBeforeLast K.cmp key.now entries.now }
    ensures there { IfOk result (λ at. IsPlace K.cmp entries.now key.now at) }
    ensures missing { IfErr result (λ at. IsGap K.cmp entries.now key.now at) }
    ensures more { steps.old ≤ steps.new }
    ensures cost { 2 ^ (steps.new - steps.old) ≤ 2 * (length entries.now - 1) + 1 }
{
    let mut low = 0;
    let mut high = entries.len() - 1;
    while low < high {
        let middle = low + (high - low) / 2;
        match compare_counted(&entries[middle].0, key, steps) {
            Ordering::Less => low = middle + 1,
            Ordering::Equal => return Ok(middle),
            Ordering::Greater => high = middle,
        }
    }
    Err(low)
}

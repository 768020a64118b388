//! Maps whose keys are turned into others that stand in the same order.
ghost use Rattle.std.specs.Prelude.{◌≡◌, Bool, T, Some, None, if◌then◌else◌, map, IfOk, OnOk};
ghost use Rattle.std.specs.FinMap.{is_sorted};
ghost use Rattle.std.specs.List.{AllByRecursion, list_all};
ghost use Rattle.std.specs.Option.{option_map};
ghost use Rattle.std.specs.declared.cmp.Ordering.TheVariants.{Less};
ghost use Rattle.chunked_map.specs.Chunks.{joined};

use crate::shared::Chunk;
use crate::{ChunkedMap, Copied};
use std::alloc::{AllocError, Global};

/// Turns keys into others. It keeps the order of those that it takes.
pub trait Renames<K: Ord> {
    /// What it takes.
    ghost takes: { Self → K → Type 0 };

    /// Whether a key has another.
    ghost has_other: { Self → K → Bool };

    /// The other key.
    ghost other: { Self → K → K };

    /// Puts the other key in the place of a key, unless it has none.
    fn rename(&self, key: &mut K) -> Result<bool, AllocError>
        requires { takes self.now key.old }
        ensures has { IfOk result (λ has. has ≡ has_other self.now key.old) }
        ensures other { OnOk result (T (has_other self.now key.old) → key.new ≡ other self.now key.old) };

    ghost keeps_order: { (names : Self) (x y : K) → takes names x → takes names y → K.cmp x y ≡ Less → K.cmp (other names x) (other names y) ≡ Less };
}

impl<K: Ord + Drop, V: Copied<K> + Drop> ChunkedMap<K, V> {
    /// The same values under other keys. There are none where a key has no other. Keys that this map alone has are
    /// turned in their place; the entries that it shares are copied.
    pub fn renamed<M: Renames<K>>(self, names: &M) -> Result<Option<ChunkedMap<K, V>>, AllocError>
        requires { AllByRecursion (λ entry. M.takes names.now entry.0) self }
        ensures renamed { IfOk result (λ found. found ≡ (if list_all (λ entry. M.has_other names.now entry.0) self then Some (map (λ entry. (M.other names.now entry.0, entry.1)) self) else None)) }
        ensures sorted { T (is_sorted K.cmp self) }
    {
        match rename_chunks(self.allocator(), self.chunks, names)? {
            Some(chunks) => Ok(Some(ChunkedMap { chunks })),
            None => Ok(None),
        }
    }
}

/// The chunks with other keys, unless a key has no other.
fn rename_chunks<K: Ord + Drop, V: Copied<K> + Drop, M: Renames<K>>(
    alloc: Global,
    chunks: Vec<Chunk<K, V>>,
    names: &M,
) -> Result<Option<Vec<Chunk<K, V>>>, AllocError>
    requires { AllByRecursion (λ entry. M.takes names.now entry.0) (joined chunks.items) }
    ensures { IfOk result (λ found. option_map (λ renamed. renamed.items) found ≡ (if list_all (λ entry. M.has_other names.now entry.0) (joined chunks.items) then Some (map (map (λ entry. (M.other names.now entry.0, entry.1))) chunks.items) else None)) }
{
    let mut renamed = Vec::with_capacity(alloc, chunks.len())?;
    for chunk in chunks {
        let Some(chunk) = chunk.renamed(names)? else {
            return Ok(None);
        };
        renamed.push(chunk)?;
    }
    Ok(Some(renamed))
}

impl<K: Ord + Drop, V: Copied<K> + Drop> Chunk<K, V> {
    /// The same values under other keys, unless a key has no other.
    fn renamed<M: Renames<K>>(self, names: &M) -> Result<Option<Chunk<K, V>>, AllocError>
        requires { AllByRecursion (λ entry. M.takes names.now entry.0) self }
        ensures { IfOk result (λ found. found ≡ (if list_all (λ entry. M.has_other names.now entry.0) self then Some (map (λ entry. (M.other names.now entry.0, entry.1)) self) else None)) }
    {
        let alloc = self.allocator();
        let mut entries = self.into_entries()?.into_list();
        if rename_all(&mut entries, names)? {
            Ok(Some(Chunk::of(alloc, entries)?))
        } else {
            Ok(None)
        }
    }
}

/// Puts other keys in the place of all, and answers whether each has another. Else nothing is said of the entries.
fn rename_all<K: Ord, V, M: Renames<K>>(
    entries: &mut [(K, V)],
    names: &M,
) -> Result<bool, AllocError>
    requires { AllByRecursion (λ entry. M.takes names.now entry.0) entries.old }
    ensures all { IfOk result (λ all. all ≡ list_all (λ entry. M.has_other names.now entry.0) entries.old) }
    ensures other { OnOk result (T (list_all (λ entry. M.has_other names.now entry.0) entries.old) → entries.new ≡ map (λ entry. (M.other names.now entry.0, entry.1)) entries.old) }
{
    for i in 0..entries.len() {
        if !names.rename(&mut entries[i].0)? {
            return Ok(false);
        }
    }
    Ok(true)
}

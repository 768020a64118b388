//! Copies of maps in chunks, and maps put together.
ghost use Rattle.std.specs.Prelude.{◌≡◌, T, IfOk, OnOk, OnErr};
ghost use Rattle.std.specs.FinMap.{is_sorted};
ghost use Rattle.sorted_map.specs.Merge.{put_all};

use crate::ChunkedMap;
use crate::shared::Chunk;
use std::alloc::{AllocError, Global};

/// A value that can be copied together with its key, into memory of their own.
pub trait Copied<K>: Sized {
    fn copied(key: &K, value: &Self) -> Result<(K, Self), AllocError>
        ensures { IfOk result (λ entry. entry ≡ (key.now, value.now)) };
}

impl<K: Ord + Drop, V: Copied<K> + Drop> ChunkedMap<K, V> {
    /// The same entries again. The chunks are shared until one of the two maps changes them.
    pub fn copy(&self) -> Result<ChunkedMap<K, V>, AllocError>
        ensures copied { IfOk result (λ copied. copied ≡ self.now) }
        ensures sorted { T (is_sorted K.cmp self.now) }
    {
        let chunks = share_all(self.allocator(), &self.chunks)?;
        Ok(ChunkedMap { chunks })
    }

    /// Gives each key of another map the value that it has there. A key that is there stays. Entries that the other map
    /// alone has are moved, and those that it shares are copied.
    pub fn insert_all(&mut self, other: ChunkedMap<K, V>) -> Result<(), AllocError>
        ensures ok { OnOk result (self.new ≡ put_all K.cmp other self.old) }
        ensures err { OnErr result (self.new ≡ self.old) }
        ensures sorted { T (is_sorted K.cmp self.old) }
        ensures other_sorted { T (is_sorted K.cmp other) }
    {
        let mut all = self.copy()?;
        for chunk in other.chunks {
            insert_entries(&mut all, chunk.into_entries()?.into_list())?;
        }
        *self = all;
        Ok(())
    }
}

/// Gives each key of some entries the value that it has there, one after another.
fn insert_entries<K: Ord + Drop, V: Copied<K> + Drop>(
    map: &mut ChunkedMap<K, V>,
    entries: Vec<(K, V)>,
) -> Result<(), AllocError>
    ensures { OnOk result (map.new ≡ put_all K.cmp entries.items map.old) }
{
    for (key, value) in entries {
        map.insert(key, value)?;
    }
    Ok(())
}

/// The same chunks once more.
fn share_all<K: Ord + Drop, V: Drop>(
    alloc: Global,
    chunks: &[Chunk<K, V>],
) -> Result<Vec<Chunk<K, V>>, AllocError>
    ensures { IfOk result (λ shared. shared.items ≡ chunks.now) }
{
    let mut shared = Vec::with_capacity(alloc, chunks.len())?;
    for chunk in chunks {
        shared.push(chunk.share()?)?;
    }
    Ok(shared)
}

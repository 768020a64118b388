//! What a store knows of file formats. It stands on this trait, and never on a format.
ghost use Rattle.std.specs.Prelude.{◌≡◌, ◌⊎◌, ℕ, List, [], Bool, true, Some, MatchResult};
ghost use Rattle.std.specs.FinMap as map;
ghost use Rattle.model_names.specs.Name.{Name};
ghost use Rattle.model_maps.specs.Entry.{Entry};
ghost use Rattle.model_maps.specs.KeyMap.{KeyMap, no_keys};
ghost use Rattle.model_maps.specs.Limits.{IsLimited};
ghost use Rattle.kdb_outside.specs.declared.kinds.Kind.{Kind};
ghost use Rattle.kdb_outside.specs.declared.kinds.Kind.TheVariants.{Dump, SimpleIni};
ghost use Rattle.model_formats.specs.Holding.{EachHas, LacksFirst, IsKeywise};
ghost use Rattle.storage_api.specs.Formats.{RefusesToRead, RefusesToWrite};

use crate::{ReadRefusal, WriteRefusal};
use kdb_outside::Kind;
use key_set::KeySet;
use std::alloc::Global;

/// Formats by their kinds. The keys of a file have cascading names, relative to where the file is mounted.
pub trait Formats {
    /// The bytes of a file of this kind read as this map.
    ghost reads: { Kind → List ℕ → KeyMap → Type 0 };

    /// They read as no map, and the first thing without a reading begins with this line, from 1.
    ghost is_bad_at: { Kind → List ℕ → ℕ → Type 0 };

    /// The text of a map.
    ghost text: { Kind → KeyMap → List ℕ };

    /// A file of this kind can hold this key of the map beside the others.
    ghost holds: { Kind → KeyMap → Name → Entry → Type 0 };

    /// It can hold the map.
    ghost is_storable: { Kind → KeyMap → Type 0 };

    /// It can't, and this is the first key that it can't hold.
    ghost breaks_at: { Kind → KeyMap → Name → Type 0 };

    /// A map is storable exactly where each of its keys alone is.
    ghost is_keywise: { Kind → Bool };

    /// The text of a map that can be stored reads as that map.
    ghost text_reads: { (kind : Kind) (keys : KeyMap) → IsLimited keys → is_storable kind keys → reads kind (text kind keys) keys };

    /// Bytes read as at most one map.
    ghost one_reading: { (kind : Kind) (bytes : List ℕ) (keys other : KeyMap) → reads kind bytes keys → reads kind bytes other → keys ≡ other };

    /// A map that some bytes read as can be stored,
    ghost read_is_storable: { (kind : Kind) (bytes : List ℕ) (keys : KeyMap) → reads kind bytes keys → is_storable kind keys };

    /// and is within the limits of a file.
    ghost read_is_limited: { (kind : Kind) (bytes : List ℕ) (keys : KeyMap) → reads kind bytes keys → IsLimited keys };

    /// No bytes read as the empty map.
    ghost empty_reads: { (kind : Kind) → reads kind [] no_keys };

    /// Bytes read as a map, or are bad at a line.
    ghost reads_or_bad: { (kind : Kind) (bytes : List ℕ) → ((keys : KeyMap) × reads kind bytes keys) ⊎ ((line : ℕ) × is_bad_at kind bytes line) };

    /// Bytes that read as a map are bad at no line,
    ghost read_is_not_bad: { (kind : Kind) (bytes : List ℕ) (keys : KeyMap) (line : ℕ) → reads kind bytes keys → is_bad_at kind bytes line → ⊥ };

    /// and others at one line alone.
    ghost one_line: { (kind : Kind) (bytes : List ℕ) (line other : ℕ) → is_bad_at kind bytes line → is_bad_at kind bytes other → line ≡ other };

    /// A map can be stored where each of its keys can be held,
    ghost held_is_storable: { (kind : Kind) (keys : KeyMap) → EachHas (holds kind keys) keys → is_storable kind keys };

    /// and nowhere else.
    ghost storable_is_held: { (kind : Kind) (keys : KeyMap) → is_storable kind keys → EachHas (holds kind keys) keys };

    /// A map can be stored, or breaks at a key,
    ghost storable_or_breaks: { (kind : Kind) (keys : KeyMap) → is_storable kind keys ⊎ ((name : Name) × breaks_at kind keys name) };

    /// which is the first in name order that can't be held.
    ghost breaks_first: { (kind : Kind) (keys : KeyMap) (name : Name) → breaks_at kind keys name → LacksFirst (holds kind keys) keys name };

    /// A map that can be stored breaks at no key,
    ghost storable_breaks_nowhere: { (kind : Kind) (keys : KeyMap) (name : Name) → is_storable kind keys → breaks_at kind keys name → ⊥ };

    /// and others at one key alone.
    ghost one_break: { (kind : Kind) (keys : KeyMap) (name other : Name) → breaks_at kind keys name → breaks_at kind keys other → name ≡ other };

    /// which is one of its keys.
    ghost breaks_at_a_key: { (kind : Kind) (keys : KeyMap) (name : Name) → breaks_at kind keys name → (entry : Entry) × (map.get keys name ≡ Some entry) };

    /// Where a format goes by keys, a key can be held beside any others or beside none,
    ghost held_alone: { (kind : Kind) (keys other : KeyMap) (name : Name) (entry : Entry) → is_keywise kind ≡ true → holds kind keys name entry → holds kind other name entry };

    /// and a map can be stored exactly where each key alone can.
    ghost by_keys: { (kind : Kind) (keys : KeyMap) → is_keywise kind ≡ true → IsKeywise (is_storable kind) keys };

    /// So does dump,
    ghost dump_is_keywise: { is_keywise Dump ≡ true };

    /// and so does simpleini: a mount of these may count conflicts by key.
    ghost ini_is_keywise: { is_keywise SimpleIni ≡ true };

    /// The map that the bytes of a file read as; `BadFile` exactly where there is none, with its line.
    fn read(&self, alloc: Global, kind: Kind, bytes: &[u8]) -> Result<KeySet, ReadRefusal>
        ensures { MatchResult result (λ keys. reads kind bytes.now keys) (RefusesToRead (is_bad_at kind bytes.now)) };

    /// The text of a map; `NotStorable` exactly where a file of this kind can't hold it, with the first key that it
    /// can't.
    fn write(&self, alloc: Global, kind: Kind, keys: &KeySet) -> Result<Vec<u8>, WriteRefusal>
        requires { IsLimited keys.now }
        ensures text { MatchResult result (λ bytes. (bytes.items ≡ text kind keys.now) × is_storable kind keys.now) (RefusesToWrite (breaks_at kind keys.now)) };

    /// Whether a map is storable exactly where each of its keys alone is.
    fn keywise(&self, kind: Kind) -> bool
        ensures { result ≡ is_keywise kind };
}

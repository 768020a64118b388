//! The laws of hosts files.
ghost use Rattle.std.specs.Prelude.{◌≡◌, ◌⊎◌, List, ℕ, [], Some};
ghost use Rattle.std.specs.FinMap as map;
ghost use Rattle.std.specs.declared.cmp.Ordering.TheVariants.{Less};
ghost use Rattle.model_names.specs.Name.{Name};
ghost use Rattle.model_names.specs.Order.{name_cmp};
ghost use Rattle.model_maps.specs.Entry.{Entry};
ghost use Rattle.model_maps.specs.KeyMap.{KeyMap, no_keys};
ghost use Rattle.model_maps.specs.Limits.{IsLimited};
ghost use Rattle.model_hosts.specs.Keys.{IsHostsKey, IsStorable, BreaksAt};
ghost use Rattle.model_hosts.specs.Hosts.{Reads, IsBadAt};
ghost use Rattle.model_hosts.specs.Text.{text};

/// The text of a map that can be stored, within the limits of a file, reads as it.
pub fn a_text_reads_as_its_map()
    ensures { (keys : KeyMap) → IsLimited keys → IsStorable keys → Reads (text keys) keys }
{}

/// It reads as no other map.
pub fn a_text_reads_as_no_other_map()
    ensures { (keys other : KeyMap) → IsLimited keys → IsStorable keys → Reads (text keys) other → other ≡ keys }
{}

/// Two such maps that have one text are one.
pub fn different_maps_have_different_texts()
    ensures { (keys other : KeyMap) → IsLimited keys → IsStorable keys → IsLimited other → IsStorable other
        → text keys ≡ text other → keys ≡ other }
{}

/// A map that some bytes read as can be stored, and is within the limits of a file.
pub fn what_reads_is_storable()
    ensures storable { (bytes : List ℕ) (keys : KeyMap) → Reads bytes keys → IsStorable keys }
    ensures limited { (bytes : List ℕ) (keys : KeyMap) → Reads bytes keys → IsLimited keys }
{}

/// No bytes read as no keys.
pub fn no_bytes_read_as_no_keys()
    ensures { Reads [] no_keys }
{}

/// Bytes read as at most one map.
pub fn bytes_read_as_one_map()
    ensures { (bytes : List ℕ) (keys other : KeyMap) → Reads bytes keys → Reads bytes other → keys ≡ other }
{}

/// Bytes read as a map or are bad at a line, never both, and at one line alone.
pub fn bytes_have_a_reading_or_one_bad_line()
    ensures some { (bytes : List ℕ) → ((keys : KeyMap) × Reads bytes keys) ⊎ ((line : ℕ) × IsBadAt bytes line) }
    ensures not_both { (bytes : List ℕ) (keys : KeyMap) (line : ℕ) → Reads bytes keys → IsBadAt bytes line → ⊥ }
    ensures one_line { (bytes : List ℕ) (line other : ℕ) → IsBadAt bytes line → IsBadAt bytes other → line ≡ other }
{}

/// A map can be stored or breaks at a key, never both, and at one key alone: one of its keys that is neither a host's
/// nor an alias's, before which every key in name order is one.
pub fn a_map_can_be_stored_or_has_one_first_breaking_key()
    ensures some { (keys : KeyMap) → IsStorable keys ⊎ ((name : Name) × BreaksAt keys name) }
    ensures not_both { (keys : KeyMap) (name : Name) → IsStorable keys → BreaksAt keys name → ⊥ }
    ensures one_key { (keys : KeyMap) (name other : Name) → BreaksAt keys name → BreaksAt keys other → name ≡ other }
    ensures key { (keys : KeyMap) (name : Name) → BreaksAt keys name
        → (entry : Entry) × (map.get keys name ≡ Some entry) × (IsHostsKey keys name entry → ⊥) }
    ensures first { (keys : KeyMap) (name : Name) → BreaksAt keys name → (other : Name) (entry : Entry)
        → map.get keys other ≡ Some entry → name_cmp other name ≡ Less → IsHostsKey keys other entry }
{}

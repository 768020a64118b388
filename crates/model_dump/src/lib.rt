//! The dump format: which bytes read as which map, and where reading stops. Definitions for the crates above, with
//! their laws.
#![tactic(auto)]

mod examples;
mod laws;

ghost use Rattle.std.specs.Prelude.{◌≡◌, ◌⊎◌, List, ℕ};
ghost use Rattle.model_maps.specs.KeyMap.{KeyMap};
ghost use Rattle.model_dump.specs.Record.{Record};
ghost use Rattle.model_dump.specs.Adds.{Progress, Adds};
ghost use Rattle.model_dump.specs.Dump.{Reads, Stops};

pub use examples::{
    faults_stop_at_their_lines, records_without_reading_stop, small_dumps_read,
    small_maps_have_their_texts,
};
pub use laws::{
    a_text_reads_as_its_map, a_text_reads_as_no_other_map, different_maps_have_different_texts,
    dumps_are_lawful, what_reads_has_a_text, what_reads_is_limited,
};

/// A record makes one map of the map before it.
pub fn a_record_adds_one_way()
    ensures { (before : Progress) (r : Record) (a b : Progress) → Adds before r a → Adds before r b → a ≡ b }
{}

/// Bytes read as at most one map.
pub fn bytes_read_as_one_map()
    ensures { (bytes : List ℕ) (a b : KeyMap) → Reads Adds bytes a → Reads Adds bytes b → a ≡ b }
{}

/// Bytes that read as a map stop nowhere.
pub fn what_reads_stops_nowhere()
    ensures { (bytes : List ℕ) (keys : KeyMap) (place : ℕ) → Reads Adds bytes keys → Stops Adds bytes place → ⊥ }
{}

/// Bytes stop at one place at most.
pub fn bytes_stop_at_one_place()
    ensures { (bytes : List ℕ) (p q : ℕ) → Stops Adds bytes p → Stops Adds bytes q → p ≡ q }
{}

/// Bytes read as a map or stop somewhere.
pub fn bytes_read_or_stop()
    ensures { (bytes : List ℕ) → ((keys : KeyMap) × Reads Adds bytes keys) ⊎ ((place : ℕ) × Stops Adds bytes place) }
{}

/// A record has a reading behind the records before it, or it has none.
pub fn a_record_adds_or_does_not()
    ensures { (before : Progress) (r : Record)
        → ((after : Progress) × Adds before r after) ⊎ ((after : Progress) → Adds before r after → ⊥) }
{}

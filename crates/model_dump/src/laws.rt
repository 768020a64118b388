//! The laws of dumps that everything above stands on.
ghost use Rattle.std.specs.Prelude.{◌≡◌, List, ℕ};
ghost use Rattle.model_maps.specs.KeyMap.{KeyMap};
ghost use Rattle.model_maps.specs.Limits.{IsLimited};
ghost use Rattle.model_formats.specs.Format.{IsLawful};
ghost use Rattle.model_dump.specs.Adds.{Adds};
ghost use Rattle.model_dump.specs.Dump.{Reads};
ghost use Rattle.model_dump.specs.DumpFormat.{dump};
ghost use Rattle.model_dump.specs.Text.{text};

/// The text of a map within the limits of a file reads as it.
pub fn a_text_reads_as_its_map()
    ensures { (keys : KeyMap) → IsLimited keys → Reads Adds (text keys) keys }
{}

/// It reads as no other map.
pub fn a_text_reads_as_no_other_map()
    ensures { (keys other : KeyMap) → IsLimited keys → Reads Adds (text keys) other → other ≡ keys }
{}

/// Two maps within the limits that have one text are one.
pub fn different_maps_have_different_texts()
    ensures { (keys other : KeyMap) → IsLimited keys → IsLimited other → text keys ≡ text other → keys ≡ other }
{}

/// A map that some bytes read as is within the limits of a file.
pub fn what_reads_is_limited()
    ensures { (bytes : List ℕ) (keys : KeyMap) → Reads Adds bytes keys → IsLimited keys }
{}

/// So a map that some bytes read as has a text that reads as it too.
pub fn what_reads_has_a_text()
    ensures { (bytes : List ℕ) (keys : KeyMap) → Reads Adds bytes keys → Reads Adds (text keys) keys }
{}

/// Dumps keep the laws of every format; they hold every key.
pub fn dumps_are_lawful()
    ensures { IsLawful dump }
{}

//! The texts of metadata in a record: its name. Names of keys and values are those of any file.
ghost use Rattle.std.specs.Prelude.{◌≡◌, MatchOption};
ghost use Rattle.model_maps.specs.Entry.{IsMetaName};

use key_meta::LONGEST_META_NAME;

/// The metadata name that bytes are.
pub fn meta_name_of(bytes: &[u8]) -> Option<&str>
    ensures { MatchOption result
        (IsMetaName bytes.now → ⊥)
        (λ name. (name.now ≡ bytes.now) × IsMetaName bytes.now) }
{
    if bytes.is_empty() || bytes.len() > LONGEST_META_NAME {
        return None;
    }
    str::from_utf8(bytes).ok()
}

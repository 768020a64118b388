//! Names of metadata.
ghost use Rattle.std.specs.Prelude.{◌≡◌, ◌<◌, ◌≤◌, false, true, length, MatchOption};
ghost use Rattle.model_maps.specs.Entry.{longest_meta_name};
ghost use Rattle.tool_words.specs.Request.{is_meta};

use key_meta::LONGEST_META_NAME;
use std::marker::Model;

/// A text of 1 to `LONGEST_META_NAME` bytes.
#[derive(Drop)]
pub struct MetaName<'a> {
    text: &'a str,
}

impl<'a> Model for MetaName<'a> {
    ghost use Rattle.std.specs.Prelude.{ℕ, List, ◌<◌, ◌≤◌, length};
    ghost use Rattle.model_maps.specs.Entry.{longest_meta_name};

    ghost Value = { List ℕ };

    ghost view = { λ name. name.text.now };

    ghost invariant = { λ name. (0 < length name.text.now) × (length name.text.now ≤ longest_meta_name) };
}

impl<'a> MetaName<'a> {
    /// The name that a text is. There is none where it is empty or too long.
    pub fn new(text: &'a str) -> Option<MetaName<'a>>
        ensures { MatchOption result (is_meta text.now ≡ false) (λ name. (is_meta text.now ≡ true) × (name ≡ text.now)) }
    {
        if text.is_empty() || text.len() > LONGEST_META_NAME {
            return None;
        }
        Some(MetaName { text })
    }

    pub fn as_str(&self) -> &str
        ensures text { result.now ≡ self.now }
        ensures some { 0 < length self.now }
        ensures limit { length self.now ≤ longest_meta_name }
    {
        self.text
    }
}

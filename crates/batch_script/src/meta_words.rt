//! Names of metadata that are kept.
ghost use Rattle.std.specs.Prelude.{◌≡◌, ◌<◌, ◌≤◌, false, true, length, MatchOption};
ghost use Rattle.std.specs.Str.{IsUtf8};
ghost use Rattle.model_maps.specs.Entry.{longest_meta_name};
ghost use Rattle.batch_script.specs.MetaTests.{is_meta};

use key_meta::{LONGEST_META_NAME, Text};
use std::marker::Model;

/// A text of 1 to `LONGEST_META_NAME` bytes, seen as its bytes.
#[derive(Drop)]
pub struct MetaWord {
    text: Text,
}

impl Model for MetaWord {
    ghost use Rattle.std.specs.Prelude.{ℕ, List, ◌<◌, ◌≤◌, length};
    ghost use Rattle.model_maps.specs.Entry.{longest_meta_name};

    ghost Value = { List ℕ };

    ghost view = { λ name. name.text };

    ghost invariant = { λ name. (0 < length name.text) × (length name.text ≤ longest_meta_name) };
}

impl MetaWord {
    /// The name that a text is. There is none where it is empty or too long.
    pub fn new(text: Text) -> Option<MetaWord>
        ensures { MatchOption result (is_meta text ≡ false) (λ name. (is_meta text ≡ true) × (name ≡ text)) }
    {
        let bytes = text.as_str().len();
        if bytes == 0 || bytes > LONGEST_META_NAME {
            return None;
        }
        Some(MetaWord { text })
    }

    pub fn as_str(&self) -> &str
        ensures text { result.now ≡ self.now }
        ensures some { 0 < length self.now }
        ensures limit { length self.now ≤ longest_meta_name }
        ensures utf8 { IsUtf8 self.now }
    {
        self.text.as_str()
    }
}

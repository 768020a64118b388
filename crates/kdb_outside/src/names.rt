//! Names of files in a store's folder.
ghost use Rattle.std.specs.Prelude.{◌≡◌, ◌↔◌, ℕ, List, nat_eq, string_bytes, IsTrue, IfOk, OnErr, SomeIff, Some, refl};
ghost use Rattle.std.specs.Bool.{Decides};
ghost use Rattle.std.specs.Ordering.{nat_cmp};
ghost use Rattle.std.specs.Cmp.{partial_equiv_from_equiv};
ghost use Rattle.std.specs.Cmp.Lexicographic.{pointwise, slice_cmp, nat_list_eq_equiv, nat_list_cmp_total, texts_ties, texts_po};
ghost use Rattle.kdb_outside.specs.FileName.{IsNameByte, IsFileName, is_file_name};

use crate::Memory;
use std::alloc::Global;
use std::cmp::Ordering;
use std::marker::Model;

const LONGEST: usize = 100;

/// A file's name: 1 to 100 ASCII letters, digits, `.`, `_` and `-`, and no `.` first. Seen as its bytes.
#[derive(Drop)]
pub struct FileName {
    text: String,
}

impl Model for FileName {
    ghost Value = { List ℕ };

    ghost view = { λ f. string_bytes f.text };

    ghost invariant = { λ f. IsFileName (string_bytes f.text) };
}

impl FileName {
    /// The name that this text spells, if it spells one. Memory is needed only for a name.
    pub fn new(alloc: Global, text: &str) -> Result<Option<FileName>, Memory>
        ensures found { IfOk result (λ found. SomeIff found (IsFileName text.now) text.now) }
        ensures memory { OnErr result (IsFileName text.now) }
    {
        if !is_file_name(text.as_bytes()) {
            return Ok(None);
        }
        let text = String::from_str(alloc, text)?;
        Ok(Some(FileName { text }))
    }

    pub fn text(&self) -> &str
        ensures text { result.now ≡ self.now }
        ensures named { IsFileName self.now }
    {
        self.text.as_str()
    }

    pub fn copy(&self) -> Result<FileName, Memory>
        ensures { IfOk result (λ copy. copy ≡ self.now) }
    {
        let text = self.text.clone()?;
        Ok(FileName { text })
    }
}

impl PartialEq for FileName {
    ghost eq = { pointwise nat_eq };

    ghost laws = { partial_equiv_from_equiv nat_list_eq_equiv };

    fn eq(&self, other: &FileName) -> bool {
        self.text == other.text
    }
}

impl Eq for FileName {
    ghost laws = { nat_list_eq_equiv };
}

impl PartialOrd for FileName {
    ghost partial_cmp = { λ a b. Some (slice_cmp nat_cmp a b) };

    ghost laws = { texts_po };

    fn partial_cmp(&self, other: &FileName) -> Option<Ordering> {
        Some(self.cmp(other))
    }
}

impl Ord for FileName {
    ghost cmp = { slice_cmp nat_cmp };

    ghost total = { nat_list_cmp_total };

    ghost matches_partial_cmp = { λ a b. refl };

    ghost matches_eq = { texts_ties };

    fn cmp(&self, other: &FileName) -> Ordering {
        self.text.cmp(&other.text)
    }
}

/// The test of files' names tells just the texts that are such names.
pub fn the_test_of_file_names_decides()
    ensures { (bytes : List ℕ) → Decides (is_file_name bytes) (IsFileName bytes) }
{}

fn is_file_name(bytes: &[u8]) -> bool
    ensures { IsTrue result ↔ IsFileName bytes.now }
{
    match bytes.first() {
        None | Some(b'.') => false,
        Some(_) => bytes.len() <= LONGEST && bytes.iter().all(|byte| is_name_byte(*byte)),
    }
}

fn is_name_byte(byte: u8) -> bool
    ensures { IsTrue result ↔ IsNameByte byte }
{
    byte.is_ascii_alphanumeric() || matches!(byte, b'.' | b'_' | b'-')
}

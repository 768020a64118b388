//! A key of `spec:` whose name has holes, with the texts of its enumeration: one such key often stands for many keys.
ghost use Rattle.std.specs.Prelude.{◌≡◌, ℕ, List, codes, IfOk};
ghost use Rattle.model_maps.specs.Entry.{array_texts};
ghost use Rattle.type_check.specs.Listings.{has_text, is_among};

use key_meta::{Memory, Meta};
use key_name::KeyName;
use key_set::Entry;
use std::alloc::Global;
use type_check::Listing;

/// A key of `spec:` that may stand for several paths.
#[derive(Drop)]
pub struct Glob<'a> {
    pub name: &'a KeyName,
    pub entry: &'a Entry,
    pub listing: Listing,
    ghost are: { (text : List ℕ) → has_text listing text ≡ is_among (array_texts entry.now.meta (codes "check/enum")) text },
}

impl<'a> Glob<'a> {
    pub fn new(alloc: Global, name: &'a KeyName, entry: &'a Entry) -> Result<Glob<'a>, Memory>
        ensures name { IfOk result (λ made. made.name.now ≡ name.now) }
        ensures entry { IfOk result (λ made. made.entry.now ≡ entry.now) }
    {
        let listing = Listing::of(alloc, &entry.meta)?;
        Ok(Glob {
            name,
            entry,
            listing,
        })
    }
}

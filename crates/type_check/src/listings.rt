//! The texts of an enumeration in order, so that a value is found among many by halves.
ghost use Rattle.std.specs.Prelude.{◌≡◌, ℕ, List, true, false, IfOk};
ghost use Rattle.std.specs.BTreeSet.{contains_text};
ghost use Rattle.type_check.specs.Listings.{IsListingOf, has_text, is_among};

use key_meta::{Memory, Meta, Text};
use std::alloc::Global;
use std::collections::BTreeSet;

/// The texts of an enumeration.
#[derive(Drop)]
pub struct Listing {
    texts: BTreeSet<String>,
}

impl Listing {
    /// The texts of the array `check/enum`.
    pub fn of(alloc: Global, meta: &Meta) -> Result<Listing, Memory>
        ensures { IfOk result (λ made. IsListingOf made meta.now) }
    {
        let items = meta.array("check/enum")?;
        let texts = set_of(alloc, items.as_slice())?;
        Ok(Listing { texts })
    }

    /// Whether it has no text.
    pub fn is_empty(&self) -> bool
        ensures yes { result ≡ true → (text : List ℕ) → has_text self.now text ≡ false }
        ensures no { result ≡ false → (text : List ℕ) × (has_text self.now text ≡ true) }
    {
        self.texts.is_empty()
    }

    /// Whether it has a text.
    pub fn has(&self, text: &str) -> bool
        ensures { result ≡ has_text self.now text.now }
    {
        self.texts.contains(text)
    }
}

/// The set of some texts.
fn set_of(alloc: Global, items: &[Text]) -> Result<BTreeSet<String>, Memory>
    ensures { IfOk result (λ set. (text : List ℕ) → contains_text set text ≡ is_among items.now text) }
{
    let mut set = BTreeSet::new(alloc);
    for item in items {
        let text = String::from_str(alloc, item.as_str())?;
        set.insert(text)?;
    }
    Ok(set)
}

//! The checks of a value under its metadata.
ghost use Rattle.std.specs.Prelude.{IfOk};
ghost use Rattle.model_maps.specs.Entry.{Meta};
ghost use Rattle.model_rules.specs.Rules.{BreaksEnum, BreaksType, Tells};
ghost use Rattle.type_check.specs.Listings.{IsListingOf};

use crate::listings::Listing;
use crate::types::{is_of_kind, kind_of};
use key_meta::{Memory, Meta, Text};
use model_rules::Broken;
use std::alloc::Global;

/// The breach of rule 1 or 2, if there is one: `type` is no type, or the value isn't of it.
pub fn check_type(alloc: Global, value: &str, meta: &Meta) -> Result<Option<Broken>, Memory>
    ensures { IfOk result (Tells (BreaksType value.now meta.now)) }
{
    let Some(word) = meta.get("type") else {
        return Ok(None);
    };
    match kind_of(word) {
        None => {
            let given = Text::new(alloc, word)?;
            Ok(Some(Broken { rule: 1, given }))
        }
        Some(kind) => {
            if is_of_kind(kind, value) {
                return Ok(None);
            }
            let given = Text::new(alloc, value)?;
            Ok(Some(Broken { rule: 2, given }))
        }
    }
}

/// The breach of rule 5, if there is one: the array `check/enum` has an item, and none is the value.
pub fn check_enum(alloc: Global, value: &str, meta: &Meta) -> Result<Option<Broken>, Memory>
    ensures { IfOk result (Tells (BreaksEnum value.now meta.now)) }
{
    // Most keys have no metadata, and to look for the first item means to make its name.
    if meta.is_empty() {
        return Ok(None);
    }
    let listing = Listing::of(alloc, meta)?;
    check_listed(alloc, value, &listing)
}

/// The breach of rule 5 by the texts of the array `check/enum`, where they are at hand.
pub fn check_listed(alloc: Global, value: &str, listing: &Listing) -> Result<Option<Broken>, Memory>
    ensures { (meta : Meta) → IsListingOf listing.now meta → IfOk result (Tells (BreaksEnum value.now meta)) }
{
    if listing.is_empty() {
        return Ok(None);
    }
    if listing.has(value) {
        return Ok(None);
    }
    let given = Text::new(alloc, value)?;
    Ok(Some(Broken { rule: 5, given }))
}

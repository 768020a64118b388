//! The comments of a host as its metadata, and back.
ghost use Rattle.std.specs.Prelude.{◌≡◌, IfOk, string_bytes};
ghost use Rattle.model_hosts.specs.Comments.{comment_name as name_of_comment, comments, texts_of as texts_of_meta};

use key_meta::{Memory, Meta, Text};
use std::alloc::Global;

/// Texts as metadata: the items of the array `comment`.
pub fn metadata(alloc: Global, texts: Vec<Text>) -> Result<Meta, Memory>
    ensures { IfOk result (λ meta. meta ≡ comments texts.items) }
{
    let mut meta = Meta::new(alloc);
    // from the first on, so that each name comes behind those before it and moves none
    for (index, text) in texts.iter().enumerate() {
        let name = comment_name(alloc, index)?;
        meta.set(&name, text.as_str())?;
    }
    Ok(meta)
}

/// The texts of the array `comment`, which ends at the first item that is missing.
pub fn texts_of(meta: &Meta) -> Result<Vec<Text>, Memory>
    ensures { IfOk result (λ texts. texts.items ≡ texts_of_meta meta.now) }
{
    Ok(meta.array("comment")?.into_vec())
}

/// The metadata name of a comment. One underscore less than the index has digits stands before them.
fn comment_name(alloc: Global, index: usize) -> Result<String, Memory>
    ensures { IfOk result (λ name. string_bytes name ≡ name_of_comment index) }
{
    let digits = format!(in alloc; "{index}")?;
    let mut name = String::from_str(alloc, "comment/#")?;
    for _written in 0..digits.len().saturating_sub(1) {
        name.push('_')?;
    }
    name.push_str(&digits)?;
    Ok(name)
}

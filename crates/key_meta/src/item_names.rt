//! The metadata names of an array's items.
ghost use Rattle.std.specs.Prelude.{◌≡◌, IfOk, string_bytes};
ghost use Rattle.model_maps.specs.Entry.{item_name};

use crate::Memory;
use std::alloc::Global;

/// The metadata name of an array's item. One underscore less than the index has digits stands before them.
pub fn item_name(alloc: Global, array: &str, index: usize) -> Result<String, Memory>
    ensures { IfOk result (λ name. string_bytes name ≡ item_name array.now index) }
{
    let digits = format!(in alloc; "{index}")?;
    let mut name = String::from_str(alloc, array)?;
    name.push_str("/#")?;
    for _written in 0..digits.len().saturating_sub(1) {
        name.push('_')?;
    }
    name.push_str(&digits)?;
    Ok(name)
}

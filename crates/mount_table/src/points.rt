//! Which texts are mountpoints, and which name files of mounts.
ghost use Rattle.std.specs.Prelude.{◌≡◌, IfOk, Some, None};
ghost use Rattle.model_names.specs.NameOf.{name_of};
ghost use Rattle.mount_table.specs.Points.{is_point, point_of, file_of};

use crate::own::is_own;
use kdb_outside::FileName;
use key_meta::Memory;
use key_name::{KeyName, NameFault};
use std::alloc::{AllocError, Global};

/// The most bytes of a mountpoint.
const LONGEST_POINT: usize = 1024;

/// The mountpoint that an entry's text is.
pub fn point_of(alloc: Global, text: &str) -> Result<Option<KeyName>, Memory>
    ensures { IfOk result (λ found. found ≡ point_of text.now) }
{
    let Some(name) = name_of(alloc, text)? else {
        return Ok(None);
    };
    if is_point(text, &name)? {
        Ok(Some(name))
    } else {
        Ok(None)
    }
}

/// The file that a text names.
pub fn file_of(alloc: Global, text: &str) -> Result<Option<FileName>, Memory>
    ensures { IfOk result (λ found. found ≡ file_of text.now) }
{
    if text.as_bytes().starts_with(b"journal") {
        return Ok(None);
    }
    FileName::new(alloc, text)
}

/// The name that a text spells.
fn name_of(alloc: Global, text: &str) -> Result<Option<KeyName>, Memory>
    ensures { IfOk result (λ found. found ≡ name_of text.now) }
{
    match KeyName::parse(alloc, text) {
        Ok(name) => Ok(Some(name)),
        Err(fault) => match fault {
            NameFault::Memory => Err(AllocError),
            _ => Ok(None),
        },
    }
}

/// Whether a text is the canonical spelling of a name that may be mounted.
fn is_point(text: &str, name: &KeyName) -> Result<bool, Memory>
    ensures { IfOk result (λ is. is ≡ is_point text.now name.now) }
{
    let spelling = name.text()?;
    Ok(
        name.namespace().has_files()
            && text.len() <= LONGEST_POINT
            && spelling.as_str() == text
            && !is_own(name),
    )
}

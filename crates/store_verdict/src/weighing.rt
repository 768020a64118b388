//! Files that would be too heavy.
ghost use Rattle.std.specs.Prelude.{◌≡◌, MatchResult, None};
ghost use Rattle.general_words.specs.Searches.{first_some};
ghost use Rattle.store_verdict.specs.Filing.{IsTold, heavy_at};

use crate::PrepareFault;
use crate::files::FileToWrite;
use key_set::HEAVIEST_MAP;
use mount_table::MountTable;

/// The first file that would be too heavy is refused.
pub fn refuse_heavy(table: &MountTable, files: &[FileToWrite]) -> Result<(), PrepareFault>
    ensures { MatchResult result (λ _. first_some (heavy_at table.now) files.now ≡ None) (IsTold table.now (first_some (heavy_at table.now) files.now)) }
{
    for file in files {
        refuse_if_heavy(table, file)?;
    }
    Ok(())
}

/// A file that would be too heavy is refused.
fn refuse_if_heavy(table: &MountTable, file: &FileToWrite) -> Result<(), PrepareFault>
    ensures { MatchResult result (λ _. heavy_at table.now file.now ≡ None) (IsTold table.now (heavy_at table.now file.now)) }
{
    let Some(mount) = table.mount(file.mount) else {
        return Ok(());
    };
    let weight = file.contents.weight();
    if weight > HEAVIEST_MAP {
        return Err(PrepareFault::FileTooLarge {
            mount: mount.at.copy()?,
            bytes: weight,
        });
    }
    Ok(())
}

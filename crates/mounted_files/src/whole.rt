//! A file holds names relative to its mountpoint, which stands before each of them.
ghost use Rattle.std.specs.Prelude.{◌≡◌, if◌then◌else◌, IfOk, Some, None};
ghost use Rattle.mounted_files.specs.Sound.{AreCascading};
ghost use Rattle.key_set.specs.Whole.{all_fit, whole};

use key_meta::Memory;
use key_name::KeyName;
use key_set::KeySet;

/// The keys of a file under whole names. There are none where one of these names would be too long.
pub fn whole(point: &KeyName, keys: KeySet) -> Result<Option<KeySet>, Memory>
    requires { AreCascading keys }
    ensures { IfOk result (λ found. found ≡ (if all_fit point.now keys then Some (whole point.now keys) else None)) }
{
    keys.behind(point)
}

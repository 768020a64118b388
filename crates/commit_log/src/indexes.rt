//! The index of the last commits by mount.
ghost use Rattle.std.specs.Prelude.{◌≡◌, ◌<◌, ◌≤◌, ℕ, All, OnOk, if◌then◌else◌, vec_len, length};
ghost use Rattle.model_history.specs.History.{is_among};
ghost use Rattle.commit_log.specs.Index.{last_of};

use key_meta::Memory;

/// The number at a mount, 0 where the index has no place for it.
pub fn last_of(last: &[u64], mount: usize) -> u64
    ensures { result ≡ last_of last.now mount }
{
    if mount < last.len() { last[mount] } else { 0 }
}

/// Makes a place for each of some mounts.
pub fn cover(last: &mut Vec<u64>, mounts: &[u32]) -> Result<(), Memory>
    ensures same { (mount : ℕ) → last_of last.new.items mount ≡ last_of last.old.items mount }
    ensures longer { vec_len last.old ≤ vec_len last.new }
    ensures ok { OnOk result (All (λ mount. mount < vec_len last.new) mounts.now) }
{
    for mount in mounts {
        cover_one(last, *mount)?;
    }
    Ok(())
}

/// Makes a place for a mount.
fn cover_one(last: &mut Vec<u64>, mount: u32) -> Result<(), Memory>
    ensures same { (other : ℕ) → last_of last.new.items other ≡ last_of last.old.items other }
    ensures longer { vec_len last.old ≤ vec_len last.new }
    ensures ok { OnOk result (mount < vec_len last.new) }
{
    while last.len() <= mount as usize {
        last.push(0)?;
    }
    Ok(())
}

/// Gives some mounts the number of a commit.
pub fn mark(last: &mut [u64], mounts: &[u32], number: u64)
    requires { All (λ mount. mount < length last.old) mounts.now }
    ensures { (mount : ℕ)
        → last_of last.new mount ≡ (if is_among mounts.now mount then number else last_of last.old mount) }
{
    for mount in mounts {
        last[*mount as usize] = number;
    }
}

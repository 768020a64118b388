//! The visible keys of all mounts together have a limit: a mount that goes over it is bad.
ghost use Rattle.std.specs.Prelude.{◌≡◌, ◌+◌, ◌≤◌};
ghost use Rattle.general_words.specs.Saturated.{saturated};
ghost use Rattle.model_maps.specs.KeyMap.{heaviest_map};
ghost use Rattle.mounted_files.specs.Weighed.{added_weight, visible_weight, weighed_behind, weighed_file};

use crate::{Cause, FileState, MountedFile};
use key_set::HEAVIEST_MAP;
use mount_table::is_own_point;

/// Makes a file bad that is too heavy behind others, and answers what it and the others weigh. The table's own file is
/// weighed behind none, and has been counted before.
pub fn weigh(file: &mut MountedFile, sum: u64) -> u64
    requires { sum ≤ heaviest_map }
    ensures file { file.new ≡ weighed_file sum file.old }
    ensures sum { result ≡ sum + added_weight file.new }
    ensures limit { result ≤ heaviest_map }
{
    if is_own_point(&file.mount.at) {
        weigh_state(&mut file.state, 0);
        sum
    } else {
        sum + weigh_state(&mut file.state, sum)
    }
}

/// Makes a state bad that is too heavy behind others, and answers what it weighs.
pub fn weigh_state(state: &mut FileState, sum: u64) -> u64
    requires { sum ≤ heaviest_map }
    ensures state { state.new ≡ weighed_behind sum state.old }
    ensures weight { result ≡ visible_weight state.new }
    ensures limit { sum + result ≤ heaviest_map }
{
    let weight = visible_weight(state);
    let all = sum.saturating_add(weight);
    if all > HEAVIEST_MAP {
        *state = FileState::Bad {
            cause: Cause::TooHeavy { weight: all },
        };
        0
    } else {
        weight
    }
}

/// What the visible keys of a file weigh. A weight beyond the type's end is given as its last value.
pub fn visible_weight(state: &FileState) -> u64
    ensures { result ≡ saturated (visible_weight state.now) }
{
    match state {
        FileState::Good { visible, .. } => visible.weight(),
        FileState::Bad { .. } => 0,
    }
}

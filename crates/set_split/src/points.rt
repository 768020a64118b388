//! Whether names are the points of mounts.
ghost use Rattle.std.specs.Prelude.{◌≡◌};
ghost use Rattle.std.specs.Bool.{Decides};
ghost use Rattle.std.specs.List.{list_all};
ghost use Rattle.model_names.specs.Namespaces.{has_files};
ghost use Rattle.key_name.specs.Owner.{IsPoints};

use key_name::{KeyName, are_ascending};

/// Whether names can be the points of mounts: they stand in name order, each of them once, and each in a namespace
/// whose keys stand in files, which are `spec`, `dir`, `user` and `system`.
pub fn are_points(points: &[KeyName]) -> bool
    ensures { Decides result (IsPoints points.now) }
{
    are_in_files(points) && are_ascending(points)
}

/// Whether each name is in a namespace whose keys stand in files.
fn are_in_files(points: &[KeyName]) -> bool
    ensures { result ≡ list_all (λ point. has_files point.namespace) points.now }
{
    for point in points {
        if !point.namespace().has_files() {
            return false;
        }
    }
    true
}

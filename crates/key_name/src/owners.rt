//! Which of some points a name belongs to.
ghost use Rattle.std.specs.Prelude.{◌≡◌};
ghost use Rattle.std.specs.Bool.{Decides};
ghost use Rattle.std.specs.List.Sorted.{IsStrictlySortedBy};
ghost use Rattle.model_names.specs.Order.{name_cmp};
ghost use Rattle.key_name.specs.Owner.{owner_of};

use crate::KeyName;

/// The number of the longest point that is a name or above it. The points stand in name order, and are numbered from 0.
pub fn owner(points: &[KeyName], name: &KeyName) -> Option<usize>
    requires { IsStrictlySortedBy name_cmp points.now }
    ensures { result ≡ owner_of points.now name.now }
{
    let mut i = points.len();
    while i > 0 {
        i -= 1;
        if name.is_below_or_same(&points[i]) {
            return Some(i);
        }
    }
    None
}

/// Whether names stand in name order, each of them once.
pub fn are_ascending(names: &[KeyName]) -> bool
    ensures { Decides result (IsStrictlySortedBy name_cmp names.now) }
{
    for i in 1..names.len() {
        if !names[i - 1].cmp(&names[i]).is_lt() {
            return false;
        }
    }
    true
}

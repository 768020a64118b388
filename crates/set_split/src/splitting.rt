//! Splits a key set by the mounts that own its keys.
ghost use Rattle.std.specs.Prelude.{◌≡◌, IfOk, length};
ghost use Rattle.std.specs.FinMap as map;
ghost use Rattle.key_name.specs.Owner.{IsPoints};
ghost use Rattle.set_split.specs.Parts.{parts_of, left_aside};
ghost use Rattle.set_split.specs.Seen.{numbered};

use crate::{Part, Parts, involved, owned};
use key_meta::{List, Memory};
use key_name::KeyName;
use key_set::KeySet;
use std::alloc::Global;

/// The keys that the mounts involved in a parent own, in a part for each of these mounts, as `owned` gives them: copied
/// from a set of few keys, else shared with it until one of the two changes. Keys that none of them owns are left
/// aside, and counted.
pub fn split(
    alloc: Global,
    points: &[KeyName],
    parent: &KeyName,
    keys: &KeySet,
) -> Result<Parts, Memory>
    requires { IsPoints points.now }
    ensures parts { IfOk result (λ made. numbered made.parts ≡ parts_of points.now parent.now keys.now) }
    ensures aside { IfOk result (λ made. made.aside ≡ length (map.entries (left_aside points.now parent.now keys.now))) }
{
    let mounts = involved(alloc, points, parent)?;
    let mut parts = Vec::with_capacity(alloc, mounts.as_slice().len())?;
    let mut aside = keys.len();
    for mount in mounts.as_slice() {
        let mine = owned(points, *mount, keys)?;
        aside -= mine.len();
        parts.push(Part {
            mount: *mount,
            keys: mine,
        })?;
    }
    Ok(Parts {
        parts: List::from_vec(parts),
        aside: aside as u64,
    })
}

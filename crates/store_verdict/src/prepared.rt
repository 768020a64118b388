//! A set of keys that was prepared.
ghost use Rattle.std.specs.Prelude.{◌≡◌};
ghost use Rattle.store_verdict.specs.PreparedView.{front_of};

use crate::ChangeSet;
use journal_codec::FileText;
use key_meta::List;
use key_set::KeySet;
use set_split::Part;

/// A mount that the parent of a set involves, and how many commits there were when it was fetched.
#[derive(Drop)]
pub struct Seen {
    pub mount: usize,
    pub front: u64,
}

/// What a set of keys at a parent wants, against what its handle kept: it has passed each test that needs no history.
#[derive(Drop)]
pub struct Prepared {
    pub handle: u32,
    /// How many commits of this handle its record had seen.
    pub committed: u64,
    /// The involved mounts, by their numbers.
    pub seen: List<Seen>,
    pub keys: KeySet,
    /// The touched mounts, ascending.
    pub touched: List<u32>,
    /// What is wanted for each of them.
    pub wanted: List<Part>,
    pub changes: ChangeSet,
    /// How many keys no involved mount owns.
    pub aside: u64,
    /// The texts of the touched files, in the order of the files' names.
    pub texts: List<FileText>,
}

/// The front of a mount among those that were seen.
pub fn front_of(seen: &[Seen], mount: usize) -> Option<u64>
    ensures { result ≡ front_of seen.now mount }
{
    for one in seen {
        if mount == one.mount {
            return Some(one.front);
        }
    }
    None
}

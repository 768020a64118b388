//! What the history decides of a prepared set.
ghost use Rattle.std.specs.Prelude.{◌≡◌, ◌≤◌, ◌++◌, ◌∷◌, [], ℕ, IfOk, None};
ghost use Rattle.std.specs.List.Sorted.{IsStrictlySortedBy};
ghost use Rattle.std.specs.Option.{option_map};
ghost use Rattle.model_history.specs.Changes.{after};
ghost use Rattle.model_history.specs.History.{history_weight};
ghost use Rattle.model_maps.specs.KeyMap.{KeyMap};
ghost use Rattle.model_names.specs.Order.{name_cmp};
ghost use Rattle.model_store.specs.Rules.{has_risen};
ghost use Rattle.model_store.specs.Store.{Store, formats_of, store_of};
ghost use Rattle.model_store.specs.Verdicts.{IsLate, Conflict, commit_of, conflict, conflict_at, first_same};
ghost use Rattle.commit_log.specs.CommitView as log;
ghost use Rattle.store_verdict.specs.Blocking.{earlier};
ghost use Rattle.store_verdict.specs.LateView.{late_of, conflict_of, unless_full};
ghost use Rattle.store_verdict.specs.PreparedView.{prepared_of};
ghost use Rattle.store_verdict.specs.Renewing.{BringsTexts, MayRenew};

use crate::counting::counts_by_key;
use crate::prepared::{Prepared, front_of};
use crate::renewing::{Renewal, renew};
use commit_log::{Commit, HEAVIEST_HISTORY, History};
use journal_codec::FileText;
use key_meta::{List, Memory};
use key_name::KeyName;
use key_set::{HEAVIEST_MAP, KeySet};
use mount_table::MountTable;
use mounted_files::Mounted;
use plugin_chain::{Violation, first_violation};
use regex_check::Patterns;
use set_split::owner;
use std::alloc::Global;
use storage_api::Formats;

/// What becomes of a prepared set. Weights are at most `u64::MAX`.
#[derive(Drop)]
pub enum Late {
    /// No mount is touched. So many keys were left aside, since no involved mount owns them.
    Same {
        left_aside: u64,
    },
    /// A mount has a blocking commit behind the front of the set: the number of the first one.
    Conflict {
        mount: usize,
        by: u64,
    },
    /// The file of a mount that counts by key would be too large after the set: the weight of its keys, or the length
    /// of its text.
    TooLarge {
        mount: usize,
        bytes: u64,
    },
    /// A key that a touched mount owns breaks a rule after the set: the first violation.
    Invalid {
        violation: Violation,
    },
    /// The map after the set would weigh more than 16,777,216: so much.
    DatabaseFull {
        weight: u64,
    },
    /// The history with the set would weigh more than 67,108,864: so much.
    HistoryFull {
        weight: u64,
    },
    /// The set is a commit.
    Commits {
        commit: Commit,
        left_aside: u64,
        /// The texts of the touched files, where they were made anew since a mount counts by key.
        renewed: Option<List<FileText>>,
    },
}

/// A mount of a set, and the commit that blocks it.
#[derive(Clone, Copy)]
pub struct Block {
    pub mount: usize,
    pub by: u64,
}

/// What becomes of a prepared set by the commits so far and the keys of all mounts after it.
///
/// The first of these applies: `Same`, where no mount is touched; `Conflict`, for the lowest touched mount that a
/// commit behind the set's front blocks, with the first such commit: one that touches the mount, or where the mount
/// counts by key one of another handle that changes a key which the set changes there; `TooLarge`, for the lowest
/// touched mount that counts by key and whose file would be too large; `Invalid`, with the first violation in the
/// touched mounts; `DatabaseFull`; `HistoryFull`; `Commits`.
pub fn judge<F: Formats, P: Patterns>(
    alloc: Global,
    formats: &F,
    patterns: &mut P,
    mounted: &Mounted,
    history: &History,
    keys: &KeySet,
    set: &Prepared,
) -> Result<Late, Memory>
    requires { (procs : ℕ → KeyMap)
        → conflict (store_of mounted.now procs) history.now.commits (prepared_of set.now) ≡ None
        → MayRenew (formats_of F.Formats) (store_of mounted.now procs) keys.now set.now.touched }
    ensures late { IfOk result (λ made. (procs : ℕ → KeyMap) (before : KeyMap) → keys.now ≡ after before set.now.changes
        → IsLate (formats_of F.Formats) (store_of mounted.now procs) history.now.commits before (prepared_of set.now) (late_of (has_risen (P.refusals patterns.old) (P.refusals patterns.new)) made)) }
    ensures renewed { IfOk result (λ made. (procs : ℕ → KeyMap) → BringsTexts (formats_of F.Formats) (store_of mounted.now procs) keys.now set.now.touched made) }
    ensures later { P.refusals patterns.old ≤ P.refusals patterns.new }
{
    let touched = set.touched.as_slice();
    if touched.is_empty() {
        return Ok(Late::Same {
            left_aside: set.aside,
        });
    }
    let table = mounted.table();
    if let Some(block) = first_block(table, history, set) {
        return Ok(Late::Conflict {
            mount: block.mount,
            by: block.by,
        });
    }
    let renewed = match renew(alloc, formats, mounted, keys, touched)? {
        Renewal::Texts { renewed } => renewed,
        Renewal::TooLarge { mount, bytes } => return Ok(Late::TooLarge { mount, bytes }),
    };
    if let Some(violation) = first_violation(patterns, keys, table.points(), touched)? {
        return Ok(Late::Invalid { violation });
    }
    let weight = keys.weight();
    if weight > HEAVIEST_MAP {
        return Ok(Late::DatabaseFull { weight });
    }
    Ok(unless_full(history, commit_of(alloc, set)?, set.aside, renewed))
}

/// The lowest touched mount that a commit blocks.
fn first_block(table: &MountTable, history: &History, set: &Prepared) -> Option<Block>
    ensures { (store : Store) → store.mounts ≡ table.now
        → conflict_of result ≡ conflict store history.now.commits (prepared_of set.now) }
{
    for mount in set.touched.as_slice() {
        let mount = *mount as usize;
        if let Some(by) = blocking(table, history, set, mount) {
            return Some(Block { mount, by });
        }
    }
    None
}

/// The commit that blocks a mount.
fn blocking(table: &MountTable, history: &History, set: &Prepared, mount: usize) -> Option<u64>
    ensures { (store : Store) → store.mounts ≡ table.now
        → option_map (Conflict mount) result ≡ conflict_at store history.now.commits (prepared_of set.now) mount }
{
    let front = front_of(set.seen.as_slice(), mount)?;
    if counts_by_key(table, mount) {
        return first_same(table.points(), history, set, mount, front);
    }
    history.first_after(mount, front)
}

/// The first commit of another handle behind a front that changes a name which the set changes of a mount.
fn first_same(
    points: &[KeyName],
    history: &History,
    set: &Prepared,
    mount: usize,
    front: u64,
) -> Option<u64>
    requires { IsStrictlySortedBy name_cmp points.now }
    ensures { result ≡ first_same points.now history.now.commits (prepared_of set.now) mount front }
{
    let mut first = None;
    for (name, _) in set.changes.entries() {
        if owner(points, name) == Some(mount) {
            first = earlier(first, history.first_change_after(name, front, set.handle));
        }
    }
    first
}

/// The lesser of two numbers, either of which may be missing.
fn earlier(one: Option<u64>, other: Option<u64>) -> Option<u64>
    ensures { result ≡ earlier one other }
{
    match one {
        Some(number) => match other {
            Some(another) if another < number => other,
            _ => one,
        },
        None => other,
    }
}

/// The commit of a set.
fn commit_of(alloc: Global, set: &Prepared) -> Result<Commit, Memory>
    ensures { IfOk result (λ commit. log.commit_of commit ≡ commit_of (prepared_of set.now)) }
{
    Ok(Commit {
        handle: set.handle,
        touched: copy_of_numbers(alloc, set.touched.as_slice())?,
        changes: set.changes.list(alloc)?,
    })
}

/// A commit, unless the history with it would weigh too much.
fn unless_full(
    history: &History,
    commit: Commit,
    left_aside: u64,
    renewed: Option<List<FileText>>,
) -> Late
    ensures { result
        ≡ unless_full (history_weight (history.now.commits ++ log.commit_of commit ∷ [])) commit left_aside renewed }
{
    let weight = history.weight().saturating_add(commit.weight());
    if weight > HEAVIEST_HISTORY {
        return Late::HistoryFull { weight };
    }
    Late::Commits {
        commit,
        left_aside,
        renewed,
    }
}

/// The same numbers again.
fn copy_of_numbers(alloc: Global, numbers: &[u32]) -> Result<List<u32>, Memory>
    ensures { IfOk result (λ copied. copied ≡ numbers.now) }
{
    let mut copied = Vec::with_capacity(alloc, numbers.len())?;
    for number in numbers {
        copied.push(*number)?;
    }
    Ok(List::from_vec(copied))
}

//! The history of an opening. Its index says of each mount behind which commit none touches it, so that most questions
//! are answered without a look at the commits. An index by names is made where a caller wants it: it tells of each name
//! the commits that change it.
ghost use Rattle.std.specs.Prelude.{◌≡◌, ◌+◌, ◌-◌, ◌<◌, ◌≤◌, ◌++◌, [], ◌∷◌, All, IfOk, OnOk, None, if◌then◌else◌, ◌==◌, nat_lt, length, take, drop, slice_get, map};
ghost use Rattle.std.specs.Option.{option_map};
ghost use Rattle.model_history.specs.History.{first_after, first_change_after, replay, history_weight, heaviest_history};
ghost use Rattle.commit_log.specs.CommitView.{commit_of};

use crate::Commit;
use crate::commits::{changes_beside, is_among};
use crate::indexes::{cover, last_of, mark};
use crate::naming::{Names, first_mark, note_commits};
use crate::replaying::make_commits;
use key_meta::Memory;
use key_name::KeyName;
use key_set::KeySet;
use std::alloc::Global;
use std::collections::BTreeMap;
use std::marker::Model;
use std::mem;

/// Commits one after the other, numbered from 1.
#[derive(Drop)]
pub struct History {
    commits: Vec<Commit>,
    last: Vec<u64>,
    names: Names,
    /// How many of the first commits stand in the index by names.
    named: u64,
    weight: u64,
}

impl Model for History {
    ghost use Rattle.std.specs.Prelude.{◌≡◌, ◌-◌, ◌≤◌, map, vec_len};
    ghost use Rattle.std.specs.Vec.{vec_capacity};
    ghost use Rattle.model_history.specs.History.{history_weight, heaviest_history};
    ghost use Rattle.commit_log.specs.CommitView.{commit_of};
    ghost use Rattle.commit_log.specs.Index.{IsIndex};
    ghost use Rattle.commit_log.specs.Log.{Log, coded_log};
    ghost use Rattle.commit_log.specs.Naming.{IsNaming};

    ghost Value = { Log };

    ghost coded = { coded_log };

    ghost view = { λ h. record { commits = map commit_of h.commits.items; places = vec_len h.last; room = vec_capacity h.commits - vec_len h.commits } };

    ghost invariant = { λ h. (h.weight ≡ history_weight (map commit_of h.commits.items)) × (h.weight ≤ heaviest_history) × IsIndex (map commit_of h.commits.items) h.last.items × IsNaming (map commit_of h.commits.items) h.named h.names };
}

impl History {
    /// No commits, with a place in the index for some mounts.
    pub fn new(alloc: Global, mounts: usize) -> Result<History, Memory>
        ensures none { IfOk result (λ history. history.commits ≡ []) }
        ensures places { IfOk result (λ history. history.places ≡ mounts) }
    {
        Ok(History {
            commits: Vec::new(alloc),
            last: vec![in alloc; 0; mounts]?,
            names: BTreeMap::new(alloc),
            named: 0,
            weight: 0,
        })
    }

    /// How many commits there are.
    pub fn len(&self) -> u64
        ensures { result ≡ length self.now.commits }
    {
        self.commits.len() as u64
    }

    /// The commit of a number.
    pub fn commit(&self, number: u64) -> Option<&Commit>
        ensures { option_map (λ commit. commit_of commit.now) result
            ≡ (if number == 0 then None else slice_get self.now.commits (number - 1)) }
    {
        if number == 0 {
            return None;
        }
        self.commits.get(number as usize - 1)
    }

    /// The commits behind a front. With those before them they weigh no more than a history may.
    pub fn behind(&self, front: u64) -> &[Commit]
        requires { front ≤ length self.now.commits }
        ensures behind { map commit_of result.now ≡ drop front self.now.commits }
        ensures light { history_weight self.now.commits ≤ heaviest_history }
    {
        &self.commits[front as usize..]
    }

    /// The number of the first commit behind a front that touches a mount.
    pub fn first_after(&self, mount: usize, front: u64) -> Option<u64>
        ensures { result ≡ first_after self.now.commits mount front }
    {
        if last_of(&self.last, mount) <= front {
            return None;
        }
        first_behind(&self.commits, mount, front as usize)
    }

    /// The number of the first commit behind a front that another handle made and that changes a name. It looks at the
    /// marks of the name behind the front, and at the commits that aren't in the index by names.
    pub fn first_change_after(&self, name: &KeyName, front: u64, not_by: u32) -> Option<u64>
        ensures { result ≡ first_change_after self.now.commits name.now front not_by }
    {
        if let Some(number) = first_mark(&self.names, name, front, not_by) {
            return Some(number);
        }
        let from = later_of(front, self.named);
        first_change_behind(&self.commits, name, from as usize, not_by)
    }

    /// Brings the index by names up to the last commit. Where memory is wanting, it begins anew with the next call.
    pub fn index_names(&mut self) -> Result<(), Memory>
        ensures { self.new ≡ self.old }
    {
        let alloc = *self.commits.allocator();
        let mut names = mem::replace(&mut self.names, BTreeMap::new(alloc));
        let named = mem::replace(&mut self.named, 0);
        note_commits(
            alloc,
            &mut names,
            &self.commits[named as usize..],
            named + 1,
        )?;
        self.names = names;
        self.named = self.commits.len() as u64;
        Ok(())
    }

    /// What the commits weigh.
    pub fn weight(&self) -> u64
        ensures { result ≡ history_weight self.now.commits }
    {
        self.weight
    }

    /// Makes room for one more commit that touches some mounts, so that `push` takes no memory.
    pub fn reserve(&mut self, touched: &[u32]) -> Result<(), Memory>
        ensures same { self.new.commits ≡ self.old.commits }
        ensures room { OnOk result (1 ≤ self.new.room) }
        ensures kept { self.old.room ≤ self.new.room }
        ensures places { OnOk result (All (λ mount. mount < self.new.places) touched.now) }
        ensures more { self.old.places ≤ self.new.places }
    {
        self.commits.reserve(1)?;
        cover(&mut self.last, touched)
    }

    /// Adds a commit behind the others. It takes no memory: `reserve` has made room.
    pub fn push(&mut self, commit: Commit)
        requires room { 1 ≤ self.old.room }
        requires places { All (λ mount. mount < self.old.places) commit.touched }
        requires light { history_weight (self.old.commits ++ commit_of commit ∷ []) ≤ heaviest_history }
        ensures pushed { self.new.commits ≡ self.old.commits ++ commit_of commit ∷ [] }
        ensures places { self.new.places ≡ self.old.places }
    {
        let number = self.commits.len() as u64 + 1;
        mark(&mut self.last, commit.touched.as_slice(), number);
        self.weight += commit.weight();
        self.commits.push_reserved(commit);
    }

    /// Some keys after the first commits.
    pub fn replay(&self, start: &KeySet, front: u64) -> Result<KeySet, Memory>
        requires { front ≤ length self.now.commits }
        ensures { IfOk result (λ keys. keys ≡ replay start.now (take front self.now.commits)) }
    {
        let mut keys = start.copy()?;
        make_commits(&mut keys, &self.commits[..front as usize])?;
        Ok(keys)
    }
}

/// The number of the first commit from a place on that touches a mount.
fn first_behind(commits: &[Commit], mount: usize, front: usize) -> Option<u64>
    ensures { result ≡ first_after (map commit_of commits.now) mount front }
{
    for i in front..commits.len() {
        if is_among(commits[i].touched.as_slice(), mount) {
            return Some(i as u64 + 1);
        }
    }
    None
}

/// The number of the first commit from a place on that another handle made and that changes a name.
fn first_change_behind(commits: &[Commit], name: &KeyName, front: usize, not_by: u32) -> Option<u64>
    ensures { result ≡ first_change_after (map commit_of commits.now) name.now front not_by }
{
    for i in front..commits.len() {
        if changes_beside(&commits[i], name, not_by) {
            return Some(i as u64 + 1);
        }
    }
    None
}

/// The larger of two numbers.
fn later_of(front: u64, other: u64) -> u64
    ensures { result ≡ (if nat_lt front other then other else front) }
{
    if front < other { other } else { front }
}

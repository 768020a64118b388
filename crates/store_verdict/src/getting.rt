//! What a get gives a handle.
ghost use Rattle.std.specs.Prelude.{◌≡◌, ◌≤◌, ℕ, IfOk, List, OnErr, length};
ghost use Rattle.general_words.specs.Searches.{first_some};
ghost use Rattle.model_maps.specs.KeyMap.{KeyMap};
ghost use Rattle.model_store.specs.Events.{first_bad, got, shows_proc};
ghost use Rattle.model_names.specs.Name.{Name};
ghost use Rattle.model_store.specs.Store.{Store, is_bad, points_of, store_of};
ghost use Rattle.set_split.specs.Parts.{in_reach, parts_of};
ghost use Rattle.set_split.specs.Seen.{numbered};
ghost use Rattle.store_verdict.specs.BadMounts.{bad_at, is_bad_at};
ghost use Rattle.store_verdict.specs.Gets.{IsGetting};
ghost use Rattle.store_verdict.specs.RecordView.{handle_of, places_of, proc_of, record_of};

use crate::Record;
use key_meta::Memory;
use key_name::{KeyName, Namespace};
use key_set::KeySet;
use mounted_files::{FileState, Mounted, MountedFile};
use set_split::{Parts, involved, split, unite};
use std::alloc::Global;

/// What a get gives: keys, or the lowest involved mount that is bad.
#[derive(Drop)]
pub enum Getting {
    Keys { keys: KeySet },
    Bad { mount: usize },
}

/// What a get of a parent gives a handle, by the present keys and the number of commits so far. The record keeps that
/// number and a copy for each involved mount, unless one of them is bad.
pub fn get(
    alloc: Global,
    mounted: &Mounted,
    keys: &KeySet,
    front: u64,
    rec: &mut Record,
    parent: &KeyName,
) -> Result<Getting, Memory>
    requires { length mounted.now ≤ places_of rec.old }
    ensures got { IfOk result (λ made. (procs : ℕ → KeyMap) → procs (handle_of rec.old) ≡ proc_of rec.old → IsGetting (store_of mounted.now procs) keys.now front parent.now rec.old rec.new made) }
    ensures err { OnErr result (record_of rec.new ≡ record_of rec.old) }
    ensures handle { handle_of rec.new ≡ handle_of rec.old }
    ensures places { places_of rec.new ≡ places_of rec.old }
    ensures proc { proc_of rec.new ≡ proc_of rec.old }
{
    if let Some(mount) = first_bad(alloc, mounted, parent)? {
        return Ok(Getting::Bad { mount });
    }
    let parts = split(alloc, mounted.table().points(), parent, keys)?;
    let found = got(alloc, rec, &parts, parent)?;
    rec.keep(front, parts.parts);
    Ok(Getting::Keys { keys: found })
}

/// The lowest involved mount that is bad.
pub fn first_bad(
    alloc: Global,
    mounted: &Mounted,
    parent: &KeyName,
) -> Result<Option<usize>, Memory>
    ensures { IfOk result (λ bad. (procs : ℕ → KeyMap) → bad ≡ first_bad (store_of mounted.now procs) parent.now) }
{
    let mounts = involved(alloc, mounted.table().points(), parent)?;
    Ok(first_bad_of(mounted.files(), mounts.as_slice()))
}

/// The first of some mounts that is bad.
fn first_bad_of(files: &[MountedFile], mounts: &[usize]) -> Option<usize>
    ensures { result ≡ first_some (bad_at files.now) mounts.now }
{
    for mount in mounts {
        if is_bad(files, *mount) {
            return Some(*mount);
        }
    }
    None
}

/// Whether a mount is bad.
fn is_bad(files: &[MountedFile], mount: usize) -> bool
    ensures { result ≡ is_bad_at files.now mount }
{
    match files.get(mount) {
        Some(file) => is_bad_state(&file.state),
        None => false,
    }
}

/// Whether a file is bad.
fn is_bad_state(state: &FileState) -> bool
    ensures { result ≡ is_bad state.now }
{
    match state {
        FileState::Good { .. } => false,
        FileState::Bad { .. } => true,
    }
}

/// The keys that a get of a parent gives a handle, by the parts of the involved mounts: their keys, and where the
/// parent is cascading or in `proc` the handle's own too.
fn got(alloc: Global, rec: &Record, parts: &Parts, parent: &KeyName) -> Result<KeySet, Memory>
    ensures { IfOk result (λ found. (store : Store) (keys : KeyMap) → numbered parts.now.parts ≡ parts_of (points_of store) parent.now keys → store.procs (handle_of rec.now) ≡ proc_of rec.now → found ≡ got store keys (handle_of rec.now) parent.now) }
{
    let mut found = united(alloc, parts)?;
    if shows_proc(parent.namespace()) {
        found.append_all(rec.proc().copy()?)?;
    }
    Ok(found)
}

/// The keys of some parts, which share them with the parts until one of the two changes.
fn united(alloc: Global, parts: &Parts) -> Result<KeySet, Memory>
    ensures { IfOk result (λ found. (points : List Name) (parent : Name) (keys : KeyMap) → numbered parts.now.parts ≡ parts_of points parent keys → found ≡ in_reach points parent keys) }
{
    unite(alloc, parts.copy(alloc)?)
}

/// Whether a get shows the handle's own keys.
fn shows_proc(namespace: Namespace) -> bool
    ensures { result ≡ shows_proc namespace }
{
    namespace == Namespace::Cascading || namespace == Namespace::Proc
}

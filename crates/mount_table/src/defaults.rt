//! The default mounts.
ghost use Rattle.std.specs.Prelude.{◌≡◌, ◌∷◌, ◌++◌, [], if◌then◌else◌, IfOk, OnOk, false};
ghost use Rattle.std.specs.FinMap as map;
ghost use Rattle.kdb_outside.specs.declared.kinds.Kind.TheVariants.{Dump};
ghost use Rattle.kdb_outside.specs.FileName.{IsFileName};
ghost use Rattle.model_names.specs.Spelling.{spelling};
ghost use Rattle.general_words.specs.Texts.{text_cmp};
ghost use Rattle.mount_table.specs.Table.{root_mount, own_mount, remains, remaining};

use crate::Mount;
use crate::children::file_name;
use crate::entries::MountEntry;
use crate::own::{own_file, own_point};
use kdb_outside::{FileName, Kind};
use key_meta::{Memory, Text};
use key_name::KeyName;
use model_names::Namespace;
use sorted_map::SortedMap;
use std::alloc::Global;

/// The default mounts that no entry replaces.
pub fn remaining(alloc: Global, entries: &SortedMap<Text, MountEntry>) -> Result<Vec<Mount>, Memory>
    ensures { IfOk result (λ mounts. mounts.items ≡ remaining (map.from_sorted {R = text_cmp} entries.now)) }
{
    let mut mounts = Vec::new(alloc);
    push_root(alloc, entries, &mut mounts, Namespace::Spec, "spec.ecf")?;
    push_root(alloc, entries, &mut mounts, Namespace::Dir, "dir.ecf")?;
    push_root(alloc, entries, &mut mounts, Namespace::User, "user.ecf")?;
    push_root(alloc, entries, &mut mounts, Namespace::System, "system.ecf")?;
    mounts.push(own_mount(alloc)?)?;
    Ok(mounts)
}

/// Appends the mount of a whole namespace, where it remains.
fn push_root(
    alloc: Global,
    entries: &SortedMap<Text, MountEntry>,
    mounts: &mut Vec<Mount>,
    namespace: Namespace,
    file: &str,
) -> Result<(), Memory>
    requires { IsFileName file.now }
    ensures { OnOk result (let root = root_mount namespace file.now in
        mounts.new.items ≡ mounts.old.items ++ (if remains (map.from_sorted {R = text_cmp} entries.now) root then root ∷ [] else [])) }
{
    let at = KeyName::root(alloc, namespace);
    if is_replaced(alloc, entries, &at)? {
        return Ok(());
    }
    let file = file_name(alloc, file)?;
    mounts.push(dump_mount(at, file))?;
    Ok(())
}

/// Whether an entry has a mountpoint.
fn is_replaced(
    alloc: Global,
    entries: &SortedMap<Text, MountEntry>,
    at: &KeyName,
) -> Result<bool, Memory>
    ensures { IfOk result (λ is. is ≡ map.contains_key (map.from_sorted {R = text_cmp} entries.now) (spelling at.now)) }
{
    let text = Text::new(alloc, &at.text()?)?;
    Ok(entries.get(&text).is_some())
}

/// The mount of the table's own keys.
fn own_mount(alloc: Global) -> Result<Mount, Memory>
    ensures { IfOk result (λ mount. mount ≡ own_mount) }
{
    let at = own_point(alloc)?;
    let file = own_file(alloc)?;
    Ok(dump_mount(at, file))
}

fn dump_mount(at: KeyName, file: FileName) -> Mount
    ensures { result ≡ record { at = at; file = file; kind = Dump; by_key = false } }
{
    Mount {
        at,
        file,
        kind: Kind::Dump,
        by_key: false,
    }
}

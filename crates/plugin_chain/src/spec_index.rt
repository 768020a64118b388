//! The keys of `spec:`, with those at hand whose names have holes.
ghost use Rattle.std.specs.Prelude.{◌≡◌, ◌++◌, [], ◌∷◌, map, IfOk, OnOk};
ghost use Rattle.std.specs.FinMap as finite;
ghost use Rattle.std.specs.List.{filter};
ghost use Rattle.key_set.specs.EntryView.{entry_of};
ghost use Rattle.model_specified.specs.Globs.{has_glob};
ghost use Rattle.model_specified.specs.SpecMeta.{is_pattern_of};
ghost use Rattle.plugin_chain.specs.Globs.{AreInSpec, lent, seen};

use crate::globs::Glob;
use crate::narrowing::gather;
use key_meta::Memory;
use key_name::KeyName;
use key_set::{Entry, KeySet};
use std::alloc::Global;
use std::marker::Model;

/// The keys of `spec:`, of which each path finds its patterns by its first parts.
#[derive(Drop)]
pub struct SpecIndex<'a> {
    keys: &'a KeySet,
    globs: Vec<Glob<'a>>,
}

impl<'a> Model for SpecIndex<'a> {
    ghost use Rattle.model_maps.specs.KeyMap.{KeyMap, coded_keys};
    ghost use Rattle.plugin_chain.specs.Globs.{AreGlobsOf};

    ghost Value = { KeyMap };

    ghost coded = { coded_keys };

    ghost view = { λ s. s.keys.now };

    ghost invariant = { λ s. AreGlobsOf s.keys.now s.globs.items };
}

impl<'a> SpecIndex<'a> {
    pub fn new(keys: &'a KeySet) -> Result<SpecIndex<'a>, Memory>
        requires { AreInSpec keys.now }
        ensures { IfOk result (λ index. index ≡ keys.now) }
    {
        let globs = globs_of(keys)?;
        Ok(SpecIndex { keys, globs })
    }

    /// Where the keys take their memory from.
    pub fn allocator(&self) -> Global {
        self.keys.allocator()
    }

    /// The keys.
    pub fn keys(&self) -> &'a KeySet
        ensures { result.now ≡ self.now }
    {
        self.keys
    }

    /// Some keys, among which the patterns of a path are, in name order.
    pub fn candidates<'s>(&'s self, path: &KeyName) -> Result<Vec<&'s Glob<'a>>, Memory>
        ensures { IfOk result (λ found. filter (λ key. is_pattern_of path.now.parts key.0) (map seen (lent found.items)) ≡ filter (λ key. is_pattern_of path.now.parts key.0) (finite.entries self.now)) }
    {
        let mut found = Vec::new(self.allocator());
        gather(&mut found, self.globs.as_slice(), path, 0)?;
        Ok(found)
    }
}

/// The keys whose names have holes, in name order.
fn globs_of<'a>(keys: &'a KeySet) -> Result<Vec<Glob<'a>>, Memory>
    ensures { IfOk result (λ globs. map seen globs.items ≡ filter (λ key. has_glob key.0.parts) (finite.entries keys.now)) }
{
    let alloc = keys.allocator();
    let mut globs = Vec::new(alloc);
    for (name, entry) in keys.iter() {
        add_glob(alloc, &mut globs, name, entry)?;
    }
    Ok(globs)
}

/// Adds a key, if its name has a hole.
fn add_glob<'a>(
    alloc: Global,
    globs: &mut Vec<Glob<'a>>,
    name: &'a KeyName,
    entry: &'a Entry,
) -> Result<(), Memory>
    ensures ok { OnOk result (map seen globs.new.items ≡ map seen globs.old.items ++ filter (λ key. has_glob key.0.parts) ((name.now, entry_of entry.now) ∷ [])) }
{
    if name.has_glob() {
        globs.push(Glob::new(alloc, name, entry)?)?;
    }
    Ok(())
}

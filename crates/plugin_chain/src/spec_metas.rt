//! The specification metadata of a path.
ghost use Rattle.std.specs.Prelude.{◌≡◌, [], ◌∷◌, IfOk, OnOk, if◌then◌else◌};
ghost use Rattle.std.specs.Option.{option_map_or};
ghost use Rattle.std.specs.FinMap as finite;
ghost use Rattle.plugin_chain.specs.Globs.{AreInSpec};
ghost use Rattle.plugin_chain.specs.Layers.{laid};
ghost use Rattle.model_specified.specs.SpecMeta.{is_pattern_of, laid_over, said_of, spec_keys, spec_meta, spec_name};

use crate::globs::Glob;
use crate::layers::{Layer, add_layer, lay_all};
use crate::spec_index::SpecIndex;
use key_meta::{Memory, Meta};
use key_name::{KeyName, Namespace};
use key_set::KeySet;

/// The specification metadata of a path: each metadata name has the text of the first specification key of the path
/// that has it. The first is the key of `spec:` with that path, and then the others whose parts match it follow in key
/// order.
pub fn spec_meta(keys: &KeySet, path: &KeyName) -> Result<Meta, Memory>
    ensures { IfOk result (λ meta. meta ≡ spec_meta keys.now path.now.parts) }
{
    let specs = spec_keys(keys)?;
    let index = SpecIndex::new(&specs)?;
    let layers = layers_of(&index, path)?;
    lay_all(specs.allocator(), &layers)
}

/// The keys of `spec:`.
pub fn spec_keys(keys: &KeySet) -> Result<KeySet, Memory>
    ensures keys { IfOk result (λ specs. specs ≡ spec_keys keys.now) }
    ensures in_spec { IfOk result AreInSpec }
{
    keys.below(&KeyName::root(keys.allocator(), Namespace::Spec))
}

/// What the keys of `spec:` say of a path, the path's own key over the patterns.
pub fn layers_of<'s, 'a>(
    specs: &'s SpecIndex<'a>,
    path: &KeyName,
) -> Result<Vec<Layer<'s, 'a>>, Memory>
    ensures { IfOk result (λ layers. laid layers.items ≡ said_of specs.now path.now.parts) }
{
    if specs.keys().len() == 0 {
        return Ok(Vec::new(specs.allocator()));
    }
    let own = path.with_namespace(Namespace::Spec)?;
    let mut layers = own_layer(specs.keys(), &own)?;
    let globs = specs.candidates(path)?;
    for glob in globs {
        if_pattern(&mut layers, is_pattern(path, &own, glob.name), glob)?;
    }
    Ok(layers)
}

/// Whether a name in `spec:` is another than a path's own, and its parts match the path.
fn is_pattern(path: &KeyName, own: &KeyName, name: &KeyName) -> bool
    requires { own.now ≡ spec_name path.now.parts }
    ensures { result ≡ is_pattern_of path.now.parts name.now }
{
    path.matches_glob(name) && name != own
}

/// Adds the metadata of a key below some, if it is a pattern's.
fn if_pattern<'s, 'a>(
    layers: &mut Vec<Layer<'s, 'a>>,
    is_pattern: bool,
    glob: &'s Glob<'a>,
) -> Result<(), Memory>
    ensures ok { OnOk result (laid layers.new.items ≡ (if is_pattern then laid_over (laid layers.old.items ∷ glob.now.entry.now.meta ∷ []) else laid layers.old.items)) }
{
    if is_pattern {
        add_layer(layers, Layer::Shared(glob))?;
    }
    Ok(())
}

/// The metadata of a key, or none where it isn't there.
fn own_layer<'s, 'a>(specs: &'s KeySet, name: &KeyName) -> Result<Vec<Layer<'s, 'a>>, Memory>
    ensures { IfOk result (λ layers. laid layers.items ≡ option_map_or (λ entry. entry.meta) (finite.get specs.now name.now) finite.empty) }
{
    let mut layers = Vec::new(specs.allocator());
    if let Some(entry) = specs.lookup(name) {
        add_layer(&mut layers, Layer::Own(&entry.meta))?;
    }
    Ok(layers)
}

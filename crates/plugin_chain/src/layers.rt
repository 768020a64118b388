//! Metadata that stands one over the other. To lay it together means to copy it.
ghost use Rattle.std.specs.Prelude.{◌≡◌, [], ◌∷◌, IfOk, OnOk};
ghost use Rattle.model_specified.specs.SpecMeta.{laid_over};
ghost use Rattle.plugin_chain.specs.Layers.{laid, meta_of};

use crate::globs::Glob;
use crate::laying::lay_over;
use key_meta::{Memory, Meta};
use std::alloc::Global;

/// Metadata of a key of `spec:`: of a path's own key, or of one that may stand for several paths.
#[derive(Clone, Copy)]
pub enum Layer<'s, 'a> {
    Own(&'s Meta),
    Shared(&'s Glob<'a>),
}

impl<'s, 'a> Layer<'s, 'a> {
    pub fn meta(&self) -> &'s Meta
        ensures { result.now ≡ meta_of self.now }
    {
        match *self {
            Layer::Own(meta) => meta,
            Layer::Shared(glob) => &glob.entry.meta,
        }
    }
}

/// Adds a layer below some. Without a name it is left out.
pub fn add_layer<'s, 'a>(
    layers: &mut Vec<Layer<'s, 'a>>,
    layer: Layer<'s, 'a>,
) -> Result<(), Memory>
    ensures ok { OnOk result (laid layers.new.items ≡ laid_over (laid layers.old.items ∷ meta_of layer.entry ∷ [])) }
{
    if layer.meta().is_empty() {
        return Ok(());
    }
    layers.push(layer)?;
    Ok(())
}

/// The metadata that some come to.
pub fn lay_all(alloc: Global, layers: &[Layer]) -> Result<Meta, Memory>
    ensures { IfOk result (λ meta. meta ≡ laid layers.now) }
{
    let Some((first, others)) = layers.split_first() else {
        return Ok(Meta::new(alloc));
    };
    let mut meta = first.meta().copy()?;
    for layer in others {
        lay_over(&mut meta, layer.meta())?;
    }
    Ok(meta)
}

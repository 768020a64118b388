//! Metadata laid over other.
ghost use Rattle.std.specs.Prelude.{◌≡◌, ◌<◌, ◌≤◌, [], ◌∷◌, length, OnOk};
ghost use Rattle.model_maps.specs.Entry.{longest_meta_name};
ghost use Rattle.model_specified.specs.SpecMeta.{laid_over};
ghost use Rattle.plugin_chain.specs.Steps.{with_missing};

use key_meta::{Memory, Meta};

/// Lays metadata over other: each name that it has not gets its text there.
pub fn lay_over(meta: &mut Meta, other: &Meta) -> Result<(), Memory>
    ensures ok { OnOk result (meta.new ≡ laid_over (meta.old ∷ other.now ∷ [])) }
{
    for (name, text) in other.iter() {
        add_missing(meta, name, text)?;
    }
    Ok(())
}

/// Gives a name a text, where it has none.
fn add_missing(meta: &mut Meta, name: &str, text: &str) -> Result<(), Memory>
    requires some { 0 < length name.now }
    requires limit { length name.now ≤ longest_meta_name }
    ensures ok { OnOk result (meta.new ≡ with_missing name.now text.now meta.old) }
{
    if meta.get(name).is_some() {
        return Ok(());
    }
    meta.set(name, text)?;
    Ok(())
}

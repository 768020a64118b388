//! Laws of splitting and uniting.
ghost use Rattle.std.specs.Prelude.{◌≡◌, List, [], map};
ghost use Rattle.model_names.specs.declared.namespaces.Namespace.TheVariants.{Proc, Default};
ghost use Rattle.model_names.specs.Name.{Name};
ghost use Rattle.model_maps.specs.KeyMap.{KeyMap};
ghost use Rattle.key_name.specs.Owner.{IsPoints};
ghost use Rattle.set_split.specs.Involved.{involved_in};
ghost use Rattle.set_split.specs.Parts.{parts_of, in_reach};
ghost use Rattle.set_split.specs.Union.{IsUnion};

/// What is split and united again are the keys that some involved mount owns.
pub fn what_is_split_is_united_again()
    ensures { (points : List Name) (parent : Name) (keys united : KeyMap)
        → IsUnion (map (λ part. part.1) (parts_of points parent keys)) united → united ≡ in_reach points parent keys }
{}

/// No mount is involved in a parent in `proc` or `default`.
pub fn nothing_is_involved_elsewhere()
    ensures proc { (points : List Name) (parent : Name) → IsPoints points → parent.namespace ≡ Proc
        → involved_in points parent ≡ [] }
    ensures default { (points : List Name) (parent : Name) → IsPoints points → parent.namespace ≡ Default
        → involved_in points parent ≡ [] }
{}

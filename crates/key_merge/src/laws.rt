//! What becomes of a name, as a law: the side that changed it gives it.
ghost use Rattle.std.specs.Prelude.{◌≡◌, ◌≢◌, Option};
ghost use Rattle.model_maps.specs.Entry.{Entry};
ghost use Rattle.key_merge.specs.declared.choices.Choice.TheVariants as choice;
ghost use Rattle.key_merge.specs.Merging.{choice_of};

/// Where both sides agree there is no conflict. A side that alone changed a name gives it, also where it took the key
/// away or added it; and where both changed it, not alike, it is in conflict.
pub fn the_side_that_changed_a_name_gives_it()
    ensures alike { (base both : Option Entry) → choice_of base both both ≡ choice.Our }
    ensures their { (base their : Option Entry) → their ≢ base → choice_of base base their ≡ choice.Their }
    ensures our { (base our : Option Entry) → our ≢ base → choice_of base our base ≡ choice.Our }
    ensures conflict { (base our their : Option Entry) → our ≢ base → their ≢ base → our ≢ their
        → choice_of base our their ≡ choice.Conflict }
{}

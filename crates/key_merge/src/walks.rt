//! A walk over three sets in name order.
ghost use Rattle.std.specs.Prelude.{◌≡◌};
ghost use Rattle.std.specs.Option.{option_map};
ghost use Rattle.std.specs.FinMap as map;
ghost use Rattle.key_set.specs.EntryView.{entry_of};
ghost use Rattle.key_merge.specs.Front.{next_name, entry_at, behind};
ghost use Rattle.key_merge.specs.Walk.{lower};

use crate::fronts::Front;
use key_name::KeyName;
use key_set::{Entry, KeySet};

/// The keys of three sets that are still to come.
#[derive(Drop)]
pub struct Walk<'a> {
    base: Front<'a>,
    our: Front<'a>,
    their: Front<'a>,
}

/// What three sets have at a name.
#[derive(Drop)]
pub struct Entries<'a> {
    pub base: Option<&'a Entry>,
    pub our: Option<&'a Entry>,
    pub their: Option<&'a Entry>,
}

impl<'a> Walk<'a> {
    pub fn new(base: &'a KeySet, our: &'a KeySet, their: &'a KeySet) -> Walk<'a>
        ensures base { result.base ≡ map.entries base.now }
        ensures our { result.our ≡ map.entries our.now }
        ensures their { result.their ≡ map.entries their.now }
    {
        Walk {
            base: Front::new(base),
            our: Front::new(our),
            their: Front::new(their),
        }
    }

    /// The lowest name that one of the sets still has.
    pub fn name(&self) -> Option<&'a KeyName>
        ensures { option_map (λ name. name.now) result
            ≡ lower (lower (next_name self.now.base) (next_name self.now.our)) (next_name self.now.their) }
    {
        lower_of(
            lower_of(self.base.name(), self.our.name()),
            self.their.name(),
        )
    }

    /// Takes a name that is next from each set that has it.
    pub fn take(&mut self, name: &KeyName) -> Entries<'a>
        ensures base { option_map (λ e. entry_of e.now) result.base ≡ entry_at name.now self.old.base }
        ensures our { option_map (λ e. entry_of e.now) result.our ≡ entry_at name.now self.old.our }
        ensures their { option_map (λ e. entry_of e.now) result.their ≡ entry_at name.now self.old.their }
        ensures base_left { self.new.base ≡ behind name.now self.old.base }
        ensures our_left { self.new.our ≡ behind name.now self.old.our }
        ensures their_left { self.new.their ≡ behind name.now self.old.their }
    {
        Entries {
            base: self.base.take(name),
            our: self.our.take(name),
            their: self.their.take(name),
        }
    }
}

/// The lower of two names, each perhaps absent.
fn lower_of<'a>(one: Option<&'a KeyName>, other: Option<&'a KeyName>) -> Option<&'a KeyName>
    ensures { option_map (λ name. name.now) result
        ≡ lower (option_map (λ name. name.now) one.entry) (option_map (λ name. name.now) other.entry) }
{
    match (one, other) {
        (None, other) => other,
        (one, None) => one,
        (Some(one), Some(other)) => { if other < one { Some(other) } else { Some(one) } }
    }
}

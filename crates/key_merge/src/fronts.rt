//! The keys of a set one after another, the next one at hand.
ghost use Rattle.std.specs.Prelude.{◌≡◌};
ghost use Rattle.std.specs.Option.{option_map};
ghost use Rattle.std.specs.FinMap as map;
ghost use Rattle.key_set.specs.EntryView.{entry_of};
ghost use Rattle.key_merge.specs.Front.{next_name, entry_at, behind};

use key_name::KeyName;
use key_set::{Entry, KeySet, KeySetIter};
use std::marker::Model;

/// The keys of a set that are still to come, in name order.
#[derive(Drop)]
pub struct Front<'a> {
    next: Option<(&'a KeyName, &'a Entry)>,
    rest: KeySetIter<'a>,
}

impl<'a> Model for Front<'a> {
    ghost use Rattle.std.specs.Prelude.{◌≡◌, List, [], None};
    ghost use Rattle.std.specs.Option.{option_map};
    ghost use Rattle.std.specs.Coded.{coded×, coded_list};
    ghost use Rattle.model_names.specs.Name.{Name, coded_name};
    ghost use Rattle.model_maps.specs.Entry.{Entry, coded_entry};
    ghost use Rattle.key_set.specs.EntryView.{entry_of as seen};
    ghost use Rattle.key_merge.specs.Front.{with_next};

    ghost Value = { List (Name × Entry) };

    ghost coded = { coded_list (coded× coded_name coded_entry) };

    ghost view = { λ s. with_next (option_map (λ key. (key.0.now, seen key.1.now)) s.next) s.rest };

    ghost invariant = { λ s. s.next ≡ None → s.rest ≡ [] };
}

impl<'a> Front<'a> {
    pub fn new(keys: &'a KeySet) -> Front<'a>
        ensures { result ≡ map.entries keys.now }
    {
        let mut rest = keys.iter();
        let next = rest.next();
        Front { next, rest }
    }

    /// The name of the next key.
    pub fn name(&self) -> Option<&'a KeyName>
        ensures { option_map (λ name. name.now) result ≡ next_name self.now }
    {
        match self.next {
            Some((name, _)) => Some(name),
            None => None,
        }
    }

    /// Takes the next key where it has this name, and answers its entry.
    pub fn take(&mut self, name: &KeyName) -> Option<&'a Entry>
        ensures taken { option_map (λ entry. entry_of entry.now) result ≡ entry_at name.now self.old }
        ensures rest { self.new ≡ behind name.now self.old }
    {
        let (next, entry) = self.next?;
        if next != name {
            return None;
        }
        self.next = self.rest.next();
        Some(entry)
    }
}

//! The keys of a set, one after another.
ghost use Rattle.std.specs.Iterator.{YieldsFirstBy, item_count};
ghost use Rattle.key_set.specs.EntryView.{entry_of};

use crate::Entry;
use chunked_map::ChunkedIter;
use key_name::KeyName;
use std::marker::Model;

/// The keys of a set that are still to come, in name order.
#[derive(Drop)]
pub struct KeySetIter<'a> {
    pub(crate) rest: ChunkedIter<'a, KeyName, Entry>,
}

impl<'a> Model for KeySetIter<'a> {
    ghost use Rattle.std.specs.Prelude.{List, map};
    ghost use Rattle.std.specs.Coded.{coded×, coded_list};
    ghost use Rattle.model_names.specs.Name.{Name, coded_name};
    ghost use Rattle.model_maps.specs.Entry.{Entry, coded_entry};
    ghost use Rattle.key_set.specs.EntryView.{entry_of as seen};

    ghost Value = { List (Name × Entry) };

    ghost coded = { coded_list (coded× coded_name coded_entry) };

    ghost view = { λ s. map (λ key. (key.0, seen key.1)) s.rest };
}

impl<'a> Iterator for KeySetIter<'a> {
    type Item = (&'a KeyName, &'a Entry);

    ghost next_gives = { YieldsFirstBy (λ key. (key.0.now, entry_of key.1.now)) (λ s. s) };

    ghost remaining = { item_count (λ s. s) };

    fn next(&mut self) -> Option<(&'a KeyName, &'a Entry)> {
        self.rest.next()
    }
}

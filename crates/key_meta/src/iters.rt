//! The items of metadata, one after another.
ghost use Rattle.std.specs.Iterator.{YieldsFirstBy, item_count};

use crate::Text;
use std::marker::Model;

/// The items that are still to come, in the order of their names.
#[derive(Drop)]
pub struct MetaIter<'a> {
    pub(crate) rest: &'a [(Text, Text)],
}

impl<'a> Model for MetaIter<'a> {
    ghost use Rattle.std.specs.Prelude.{ℕ, List};

    ghost Value = { List (List ℕ × List ℕ) };

    ghost view = { λ s. s.rest.now };
}

impl<'a> Iterator for MetaIter<'a> {
    type Item = (&'a str, &'a str);

    ghost next_gives = { YieldsFirstBy (λ item. (item.0.now, item.1.now)) (λ s. s) };

    ghost remaining = { item_count (λ s. s) };

    fn next(&mut self) -> Option<(&'a str, &'a str)> {
        let (first, others) = self.rest.split_first()?;
        self.rest = others;
        Some((first.0.as_str(), first.1.as_str()))
    }
}

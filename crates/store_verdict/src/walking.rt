//! The keys of two sets, walked side by side in name order: each key is looked at once.
ghost use Rattle.std.specs.Prelude.{◌≡◌, ◌+◌, ◌<◌, T, nat_lt, drop, if◌then◌else◌, length, slice_get, Some, None, OnOk};
ghost use Rattle.std.specs.FinMap as map;
ghost use Rattle.std.specs.FinMap.{is_sorted};
ghost use Rattle.std.specs.Option.{option_map, option_or};
ghost use Rattle.key_set.specs.EntryView.{entry_of};
ghost use Rattle.key_set.specs.Same.{same_entry};
ghost use Rattle.model_names.specs.Name.{Name};
ghost use Rattle.model_names.specs.Order.{name_cmp};
ghost use Rattle.store_verdict.specs.Walking.{change_between};

use crate::ChangeSet;
use key_meta::Memory;
use key_name::KeyName;
use key_set::{Entry, KeySet, KeySetIter};
use std::cmp::Ordering;
use std::marker::Model;

/// The keys of a set that are still to come, in name order, with the first of them at hand.
#[derive(Drop)]
pub struct Walk<'a> {
    at_hand: Option<(&'a KeyName, &'a Entry)>,
    behind: KeySetIter<'a>,
}

impl<'a> Model for Walk<'a> {
    ghost use Rattle.std.specs.Prelude.{List};
    ghost use Rattle.std.specs.Coded.{coded×, coded_list};
    ghost use Rattle.std.specs.Option.{option_map as over_option};
    ghost use Rattle.model_names.specs.Name.{Name, coded_name};
    ghost use Rattle.model_maps.specs.Entry.{Entry, coded_entry};
    ghost use Rattle.key_set.specs.EntryView.{entry_of as seen};
    ghost use Rattle.store_verdict.specs.Walking.{to_come};

    ghost Value = { List (Name × Entry) };

    ghost coded = { coded_list (coded× coded_name coded_entry) };

    ghost view = { λ walk. to_come (over_option (λ key. (key.0.now, seen key.1.now)) walk.at_hand) walk.behind };
}

impl<'a> Walk<'a> {
    /// All keys of a set.
    pub fn new(keys: &'a KeySet) -> Walk<'a>
        ensures { result ≡ map.entries keys.now }
    {
        let mut behind = keys.iter();
        let at_hand = behind.next();
        Walk { at_hand, behind }
    }

    /// The first key that is still to come.
    fn first(&self) -> Option<(&'a KeyName, &'a Entry)>
        ensures { option_map (λ key. (key.0.now, entry_of key.1.now)) result ≡ slice_get self.now 0 }
    {
        self.at_hand
    }

    /// Passes the first key, if there is one.
    fn pass(&mut self)
        ensures { self.new ≡ drop 1 self.old }
    {
        if self.at_hand.is_none() {
            return;
        }
        self.at_hand = self.behind.next();
    }
}

/// Whether keys are still to come in one of two walks.
pub fn is_under_way(had: &Walk<'_>, wanted: &Walk<'_>) -> bool
    ensures { result ≡ nat_lt 0 (length had.now + length wanted.now) }
{
    had.first().is_some() || wanted.first().is_some()
}

/// Passes the first name that is still to come, and adds what changes there.
pub fn add_first(
    changes: &mut ChangeSet,
    had: &mut Walk<'_>,
    wanted: &mut Walk<'_>,
) -> Result<(), Memory>
    requires some { 0 < length had.old + length wanted.old }
    requires sorted { T (is_sorted name_cmp had.old) }
    requires wanted_sorted { T (is_sorted name_cmp wanted.old) }
    ensures added { OnOk result ((q : Name) → option_or (change_between had.new wanted.new q) (map.get changes.new q) ≡ option_or (change_between had.old wanted.old q) (map.get changes.old q)) }
    ensures fewer { length had.new + length wanted.new < length had.old + length wanted.old }
    ensures sorted { T (is_sorted name_cmp had.new) }
    ensures wanted_sorted { T (is_sorted name_cmp wanted.new) }
{
    match had.first() {
        Some((name, entry)) => match wanted.first() {
            Some((wanted_name, wanted_entry)) => match name.cmp(wanted_name) {
                Ordering::Less => {
                    had.pass();
                    add_removal(changes, name)
                }
                Ordering::Equal => {
                    had.pass();
                    wanted.pass();
                    add_if_new(changes, wanted_name, entry, wanted_entry)
                }
                Ordering::Greater => {
                    wanted.pass();
                    add_entry(changes, wanted_name, wanted_entry)
                }
            },
            None => {
                had.pass();
                add_removal(changes, name)
            }
        },
        None => match wanted.first() {
            Some((wanted_name, wanted_entry)) => {
                wanted.pass();
                add_entry(changes, wanted_name, wanted_entry)
            }
            None => unreachable!(),
        },
    }
}

/// A name is taken out.
fn add_removal(changes: &mut ChangeSet, name: &KeyName) -> Result<(), Memory>
    ensures { OnOk result (changes.new ≡ map.insert changes.old name.now None) }
{
    changes.put(name.copy()?, None)
}

/// A name gets an entry.
fn add_entry(changes: &mut ChangeSet, name: &KeyName, entry: &Entry) -> Result<(), Memory>
    ensures { OnOk result (changes.new ≡ map.insert changes.old name.now (Some (entry_of entry.now))) }
{
    changes.put(name.copy()?, Some(entry.copy()?))
}

/// A name gets another entry in place of the one that it had, unless the two are the same.
fn add_if_new(
    changes: &mut ChangeSet,
    name: &KeyName,
    entry: &Entry,
    wanted: &Entry,
) -> Result<(), Memory>
    ensures { OnOk result (changes.new ≡ (if same_entry (entry_of entry.now) (entry_of wanted.now) then changes.old else map.insert changes.old name.now (Some (entry_of wanted.now)))) }
{
    if entry == wanted {
        return Ok(());
    }
    add_entry(changes, name, wanted)
}

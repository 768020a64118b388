//! The bodies of a list's entries, by its rule.
ghost use Rattle.std.specs.Prelude.{◌≡◌, ◌≤◌, ◌+◌, ℕ, length, Ok, Err, IfOk};
ghost use Rattle.journal_codec.specs.Entry.{IsEntry};
ghost use Rattle.journal_codec.specs.Reading.{Reads, Fails};
ghost use Rattle.journal_lists.specs.Grammar.{last_place, body_in};
ghost use Rattle.journal_lists.specs.Rules.{rule_of};
ghost use Rattle.journal_lists.specs.Starts.{IsBefore};

use crate::starts::Head;
use journal_codec::{DecodeFault, FileText, decode, decode_listed};
use kdb_outside::FileName;
use key_meta::List;
use std::alloc::Global;

/// The entry that a body of this size spells, given what is there of it, or the place in it where it isn't whole.
pub(crate) fn entry_of(
    alloc: Global,
    names: &Option<List<FileName>>,
    size: u32,
    there: &[u8],
) -> Result<List<FileText>, DecodeFault>
    ensures found { IfOk result (λ entry. body_in (rule_of names.now) size there.now ≡ Ok entry) }
    ensures bad { (at : ℕ) → result ≡ Err (DecodeFault.BadJournal at)
        → body_in (rule_of names.now) size there.now ≡ Err at }
    ensures entry { IfOk result IsEntry }
    ensures within { (at : ℕ) → result ≡ Err (DecodeFault.BadJournal at) → at ≤ length there.now }
{
    match files_of(alloc, names, there) {
        Ok(files) => {
            if there.len() == size as usize {
                Ok(files)
            } else {
                Err(DecodeFault::BadJournal {
                    at: there.len() as u64,
                })
            }
        }
        Err(fault) => Err(fault),
    }
}

fn files_of(
    alloc: Global,
    names: &Option<List<FileName>>,
    body: &[u8],
) -> Result<List<FileText>, DecodeFault>
    ensures reads { IfOk result (λ files. (rule_of names.now).read body.now ≡ Reads files) }
    ensures bad { (at : ℕ) → result ≡ Err (DecodeFault.BadJournal at) → (rule_of names.now).read body.now ≡ Fails at }
    ensures entry { IfOk result IsEntry }
{
    match names {
        None => decode(alloc, body),
        Some(names) => decode_listed(alloc, body, names.as_slice()),
    }
}

/// How many bytes stand before a body, counted where its places are, behind a gate at this place of the list.
pub(crate) fn before_body(head: &Head, place: u64) -> u64
    requires head { IsBefore head.now }
    requires place { place ≤ last_place }
    ensures told { (at : ℕ) → (rule_of head.now.names).told place at ≡ result + at }
    ensures near { result ≤ 67206481 }
{
    match head.names {
        None => 0,
        Some(_) => head.start + place + 5,
    }
}

/// The place that is told of an entry past the limits, behind a gate at this place of the list.
pub(crate) fn late_place(head: &Head, place: u64) -> u64
    requires head { IsBefore head.now }
    requires place { place ≤ last_place }
    ensures { result ≡ (rule_of head.now.names).late place }
{
    match head.names {
        None => 0,
        Some(_) => head.start + place + 1,
    }
}

//! The files that a list names, each once and by name, with the content of the last entry that names it: found by a
//! search for the least name above another one, so without memory.
ghost use Rattle.std.specs.Prelude.{◌≡◌, ◌<◌, ◌≤◌, ℕ, ◌+◌, length, slice_get, List, Some, None, true};
ghost use Rattle.kdb_outside.specs.Faults.{HasCause};
ghost use Rattle.kdb_outside.specs.Frames.{GoesOn};
ghost use Rattle.kdb_outside.specs.Images.{KeepsImagesOf};
ghost use Rattle.journal_steps.specs.Moments.{AddsOnly, KeepsUnnamed};
ghost use Rattle.journal_steps.specs.Outcomes.{content_in};
ghost use Rattle.journal_steps.specs.Steps.{PutsFile};
ghost use Rattle.journal_lists.specs.Lists.{as_one};
ghost use Rattle.std.specs.Option.{option_map};
ghost use Rattle.std.specs.List.{AllByRecursion};
ghost use Rattle.journal_codec.specs.Entry.{IsEntry};
ghost use Rattle.journal_lists.specs.Grammar.{most_entries};
ghost use Rattle.intent_journal.specs.Pending.{Content, content_of, pending_in, is_above as above, is_no_later as no_later, better as better_of, least, first_above};

use journal_codec::FileText;
use journal_steps::put_file;
use kdb_outside::{Disk, Failed, FileName};
use key_meta::List;

/// No list names more files: the most entries with the most files.
const MOST_PENDING: usize = 2048;

/// How many files a list names.
pub(crate) fn count_pending(list: &[List<FileText>]) -> usize
    requires few { length list.now ≤ most_entries }
    requires each { AllByRecursion IsEntry list.now }
    ensures { result ≡ length (pending_in list.now) }
{
    let mut found = least_in(list, None);
    for count in 0..MOST_PENDING {
        match found {
            Some(_) => found = next_in(list, found),
            None => return count,
        }
    }
    MOST_PENDING
}

/// The file at this place among those that a list names.
pub(crate) fn nth_pending<'a>(list: &'a [List<FileText>], i: usize) -> Option<&'a FileText>
    ensures { option_map (λ text. content_of text.now) result ≡ slice_get (pending_in list.now) i }
{
    let mut found = least_in(list, None);
    for _ in 0..i {
        found = next_in(list, found);
    }
    found
}

/// The file behind the one that was found, if one was.
fn next_in<'a>(list: &'a [List<FileText>], found: Option<&'a FileText>) -> Option<&'a FileText>
    ensures { (k : ℕ) → option_map (λ text. content_of text.now) found.entry ≡ slice_get (pending_in list.now) k
        → option_map (λ text. content_of text.now) result ≡ slice_get (pending_in list.now) (k + 1) }
{
    match found {
        Some(text) => least_in(list, Some(&text.file)),
        None => None,
    }
}

/// The file of the least name above this one, if it is given.
fn least_in<'a>(list: &'a [List<FileText>], after: Option<&FileName>) -> Option<&'a FileText>
    ensures { option_map (λ text. content_of text.now) result
        ≡ first_above (option_map (λ name. name.now) after.entry) (pending_in list.now) }
{
    let mut best = None;
    for entry in list {
        best = least_of(entry.as_slice(), after, best);
    }
    best
}

/// The same among some texts and one more: the first of those that have one name.
fn least_of<'a>(
    texts: &'a [FileText],
    after: Option<&FileName>,
    best: Option<&'a FileText>,
) -> Option<&'a FileText>
    ensures { option_map (λ text. content_of text.now) result
        ≡ least (option_map (λ name. name.now) after.entry) texts.now (option_map (λ text. content_of text.now) best.entry) }
{
    let mut best = best;
    for i in 0..texts.len() {
        best = better(&texts[texts.len() - 1 - i], after, best);
    }
    best
}

fn better<'a>(
    text: &'a FileText,
    after: Option<&FileName>,
    best: Option<&'a FileText>,
) -> Option<&'a FileText>
    ensures { option_map (λ text. content_of text.now) result
        ≡ better_of (option_map (λ name. name.now) after.entry) (content_of text.now) (option_map (λ text. content_of text.now) best.entry) }
{
    if is_above(&text.file, after) && is_no_later(&text.file, best) {
        Some(text)
    } else {
        best
    }
}

fn is_above(name: &FileName, after: Option<&FileName>) -> bool
    ensures { result ≡ above (option_map (λ name. name.now) after.entry) name.now }
{
    match after {
        Some(last) => last.text().as_bytes().cmp(name.text().as_bytes()).is_lt(),
        None => true,
    }
}

fn is_no_later(name: &FileName, best: Option<&FileText>) -> bool
    ensures { (bytes : List ℕ)
        → result ≡ no_later (name.now, bytes) (option_map (λ text. content_of text.now) best.entry) }
{
    match best {
        Some(best) => name
            .text()
            .as_bytes()
            .cmp(best.file.text().as_bytes())
            .is_le(),
        None => true,
    }
}

/// Gives the file at this place among those that a list names its last content.
pub(crate) fn put_pending<D: Disk>(
    disk: &mut D,
    list: &[List<FileText>],
    i: usize,
) -> Result<(), Failed>
    requires { i < length (pending_in list.now) }
    ensures puts { D.tells disk.old ≡ true → (content : Content) → slice_get (pending_in list.now) i ≡ Some content
        → PutsFile D.Disk disk.old disk.new result (record { file = content.0; bytes = content.1 }) }
    ensures others { D.tells disk.old ≡ true → (other : List ℕ) → content_in (as_one list.now) other ≡ None
        → KeepsImagesOf other (D.may_leave disk.old) (D.may_leave disk.new) }
    ensures time { D.tells disk.old ≡ true
        → AddsOnly D.Disk disk.old disk.new (KeepsUnnamed (as_one list.now) (D.may_leave disk.old)) }
    ensures goes { GoesOn D.Disk disk.old disk.new }
    ensures cause { HasCause (D.faults disk.old) (D.faults disk.new) result }
{
    match nth_pending(list, i) {
        Some(text) => put_file(disk, text),
        None => unreachable!(),
    }
}

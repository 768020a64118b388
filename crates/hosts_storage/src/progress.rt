//! How far a file was read: the keys that its lines so far make, and the comments that wait for an entry.
ghost use Rattle.std.specs.Prelude.{◌≡◌, None, length, IfOk};
ghost use Rattle.std.specs.FinMap as map;
ghost use Rattle.std.specs.Option.{option_map};
ghost use Rattle.model_hosts.specs.Line.{words};
ghost use Rattle.model_hosts.specs.Hosts.{Step, AddsHost};
ghost use Rattle.hosts_storage.specs.ProgressView.{progress_of, IsSound, LeadsBy, WithComment, PutsHost};
ghost use Rattle.hosts_storage.specs.WeighedView.{IsWeighed};
ghost use Rattle.key_set.specs.EntryView.{entry_of};

use crate::entries::{host_entry, with_own};
use crate::meanings::{HostLine, Meaning, meaning_of};
use crate::names::{child, family_name};
use crate::weighed::{Weighed, add_aliases, put};
use key_meta::{Memory, Text};
use key_name::KeyName;
use key_set::{Entry, HEAVIEST_MAP};
use std::alloc::Global;
use std::mem;

/// What was read so far.
#[derive(Drop)]
pub struct Progress {
    pub found: Weighed,
    pub waiting: Vec<Text>,
}

/// Reads a line, if it has a reading.
pub fn add_line(progress: &mut Progress, alloc: Global, line: &[u8]) -> Result<bool, Memory>
    requires { IsSound progress.old }
    ensures { IfOk result (LeadsBy (Step (progress_of progress.old) line.now) progress.new) }
{
    let Ok(_) = str::from_utf8(line) else {
        return Ok(false);
    };
    match meaning_of(line) {
        Meaning::Skipped => Ok(true),
        Meaning::Comment(comment) => {
            let waits = add_comment(progress, alloc, comment)?;
            Ok(waits)
        }
        Meaning::Gives(found) => add_host(progress, alloc, found),
        Meaning::Unreadable => Ok(false),
    }
}

/// A comment waits behind those that wait, if it is a text.
fn add_comment(progress: &mut Progress, alloc: Global, comment: &[u8]) -> Result<bool, Memory>
    requires { IsSound progress.old }
    ensures { IfOk result (LeadsBy (WithComment (progress_of progress.old) comment.now) progress.new) }
{
    let Ok(text) = str::from_utf8(comment) else {
        return Ok(false);
    };
    let text = Text::new(alloc, text)?;
    progress.waiting.push(text)?;
    Ok(true)
}

/// Adds the keys of an entry with the comments that wait, if it has a reading.
fn add_host(progress: &mut Progress, alloc: Global, line: HostLine<'_>) -> Result<bool, Memory>
    requires { IsSound progress.old }
    ensures { IfOk result (LeadsBy (AddsHost (progress_of progress.old) line.entry.address.now line.entry.host.now (words line.entry.aliases.now) (option_map (λ comment. comment.now) line.entry.own)) progress.new) }
{
    let family = family_name(alloc, line.address)?;
    let Some(host) = child(&family, line.host)? else {
        return Ok(false);
    };
    if progress.found.keys.lookup(&host).is_some() {
        return Ok(false);
    }
    let waiting = mem::replace(&mut progress.waiting, Vec::new(alloc));
    let Some(texts) = with_own(alloc, waiting, line.own)? else {
        return Ok(false);
    };
    let Some(entry) = host_entry(alloc, line.address, texts)? else {
        return Ok(false);
    };
    let is_put = put_host(&mut progress.found, alloc, host, entry, line.aliases)?;
    Ok(is_put)
}

/// Puts a new host and its aliases, if their names are names and the keys don't get too heavy.
fn put_host(
    found: &mut Weighed,
    alloc: Global,
    host: KeyName,
    entry: Entry,
    aliases: &[u8],
) -> Result<bool, Memory>
    requires sound { IsWeighed found.old }
    requires new { map.get found.old.keys host ≡ None }
    requires two { length host.parts ≡ 2 }
    ensures { IfOk result (PutsHost found.old.keys host (entry_of entry) (words aliases.now) found.new) }
{
    let above = host.copy()?;
    put(found, host, entry)?;
    if !add_aliases(found, alloc, &above, aliases)? {
        return Ok(false);
    }
    Ok(found.weight <= HEAVIEST_MAP)
}

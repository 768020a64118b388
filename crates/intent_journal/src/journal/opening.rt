//! A journal over the disk that it is opened on.
ghost use Rattle.std.specs.Prelude.{◌≡◌, ◌≤◌, ◌||◌, [], true};
ghost use Rattle.std.specs.Vec.{vec_capacity};
ghost use Rattle.journal_codec.specs.Entry.{journal2_name};
ghost use Rattle.journal_lists.specs.Grammar.{most_entries};
ghost use Rattle.intent_journal.specs.Opened.{IsFresh};
ghost use Rattle.intent_journal.specs.Opens.{OpensJournal, has_any};

use super::Journal;
use crate::opening::open;
use journal_codec::FileText;
use journal_steps::{JournalFault, JournalRefused, name_of_journal, name_of_journal2};
use kdb_outside::{Disk, FileName};
use key_meta::List;
use std::alloc::Global;

impl<D: Disk> Journal<D> {
    /// Opens the journal of a disk: retires that of the former program, and brings open entries into their files;
    /// without either the disk is only read. Then the list is empty, and the header gate in doubt, since what was read
    /// may be pending. A refusal hands the disk back: BadJournal where an open entry or the head isn't whole,
    /// UnknownVersion where the journal has another version, DiskFault where the disk failed, Memory where memory is
    /// out.
    pub fn open(alloc: Global, disk: D) -> Result<Journal<D>, JournalRefused<D>>
        ensures { OpensJournal D.Disk disk result }
    {
        let mut disk = disk;
        let Ok(former) = name_of_journal(alloc) else {
            return Err(JournalRefused {
                fault: JournalFault::Memory,
                disk,
            });
        };
        let Ok(name) = name_of_journal2(alloc) else {
            return Err(JournalRefused {
                fault: JournalFault::Memory,
                disk,
            });
        };
        match open(alloc, &mut disk, &former, &name) {
            Ok((retired, list)) => Ok(Journal::begin(disk, name, retired, list)),
            Err(fault) => Err(JournalRefused { fault, disk }),
        }
    }

    /// The journal, given the entries that were found on its disk and are in its files.
    fn begin(
        disk: D,
        name: FileName,
        retired: Vec<List<FileText>>,
        list: Vec<List<FileText>>,
    ) -> Journal<D>
        requires name { name ≡ journal2_name }
        requires room { most_entries ≤ vec_capacity list }
        ensures disk { result.disk ≡ disk }
        ensures fresh { IsFresh result }
        ensures recovered { result.recovered ≡ (has_any retired.items || has_any list.items) }
    {
        let mut list = list;
        let recovered = !retired.is_empty() || !list.is_empty();
        list.clear();
        Journal {
            disk,
            name,
            headed: false,
            start: 0,
            place: 0,
            list,
            in_doubt: true,
            recovered,
        }
    }
}

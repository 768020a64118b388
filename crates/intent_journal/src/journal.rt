//! The journal of many entries, and the steps of entries through it.
ghost use Rattle.std.specs.Prelude.{◌≡◌, ◌≤◌, ℕ, ◌+◌, ◌&&◌, nat_lt, nat_le, ◌++◌, ◌∷◌, [], List, length, Some, true, false, Err, IfOk, OnOk, OnErr, ◌<◌, slice_get, not};
ghost use Rattle.backend_files.specs.WholeFile.{IsWhole, IsShort, IsGiven};
ghost use Rattle.kdb_outside.specs.Faults.{HasRisen};
ghost use Rattle.kdb_outside.specs.Frames.{OnlyReads};
ghost use Rattle.journal_codec.specs.declared.files.FileText.{FileText as Item};
ghost use Rattle.journal_codec.specs.Entry.{IsEntry};
ghost use Rattle.journal_steps.specs.Steps.{PutsFile};
ghost use Rattle.journal_codec.specs.Forms.{spelled_on, behind_gate};
ghost use Rattle.journal_lists.specs.Grammar.{most_entries, last_place, head_size};
ghost use Rattle.intent_journal.specs.Journal.{state_of, has_room, IsList, IsHeaderBytes};
ghost use Rattle.intent_journal.specs.Opened.{IsFresh};
ghost use Rattle.intent_journal.specs.Opens.{has_any};
ghost use Rattle.intent_journal.specs.Pending.{Content, pending_in, HasBroughtTo};
ghost use Rattle.intent_journal.specs.States.{HasBodyBehind};
ghost use Rattle.intent_journal.specs.Passing.{IsSame, SettlesList, SettlesHead, PutsHeader, StaysListed, OpensGate, ClosesGate, FinishesList};
ghost use Rattle.intent_journal.specs.Steps.{IsStep};

mod opening;

use crate::bringing::bring_in;
use crate::pending::{count_pending, put_pending};
use crate::writing::{close_gate, open_gate, put_body, put_header};
use backend_files::{FileFault, FileRead};
use journal_codec::FileText;
use journal_lists::{HEAD, LAST_PLACE, MOST_ENTRIES, body_size};
use journal_steps::State;
use kdb_outside::{Disk, Failed, FileName};
use key_meta::List;
use std::alloc::Global;
use std::marker::Model;

/// The journal of a store over a disk: the entries whose gates are open go into their files, whatever happens.
#[derive(Drop)]
pub struct Journal<D: Disk> {
    disk: D,
    name: FileName,
    /// Whether the header gate is open for good.
    headed: bool,
    /// How many bytes stand before the list then.
    start: u64,
    /// Where the next gate to be written stands: behind the list, or at the file's beginning.
    place: u64,
    list: Vec<List<FileText>>,
    in_doubt: bool,
    recovered: bool,
}

impl<D: Disk> Model for Journal<D> {
    ghost use Rattle.std.specs.Vec.{vec_capacity};
    ghost use Rattle.intent_journal.specs.Journal.{JournalValue, IsSound};

    ghost Value = { JournalValue D };

    ghost view = { λ j. record { disk = j.disk; headed = j.headed; start = j.start; list = j.list.items; in_doubt = j.in_doubt; recovered = j.recovered } };

    ghost invariant = { λ j. IsSound (D.tells j.disk) (D.may_leave j.disk) j.name j.place j.headed j.start j.list.items j.in_doubt (vec_capacity j.list) };
}

impl<D: Disk> Journal<D> {
    /// What is known of the gates: the header gate is closed, or it is open and the list empty or not, or a gate is in
    /// doubt.
    pub fn state(&self) -> State
        ensures { result ≡ state_of self.now }
    {
        if self.in_doubt {
            State::Doubt
        } else if !self.headed {
            State::Bare
        } else if self.list.is_empty() {
            State::Clean
        } else {
            State::Lag
        }
    }

    /// Whether no entry waits to be brought into its files.
    pub fn is_empty(&self) -> bool
        ensures exact { result ≡ not (has_any self.now.list) }
        ensures headed { result ≡ false → self.now.headed ≡ true }
    {
        self.list.is_empty()
    }

    /// Whether the journal is as its opening left it: no entry waits, and the header gate is in doubt.
    pub fn is_fresh(&self) -> bool
        ensures fresh { result ≡ true → IsFresh self.now }
        ensures other { result ≡ false → ¬ IsFresh self.now }
    {
        self.in_doubt && !self.headed
    }

    /// Whether the opening found open entries, and brought them in.
    pub fn has_recovered(&self) -> bool
        ensures { result ≡ self.now.recovered }
    {
        self.recovered
    }

    /// The disk, with what stands on it.
    pub fn into_disk(self) -> D
        ensures { result ≡ self.disk }
    {
        let Journal { disk, .. } = self;
        disk
    }

    /// A file of the disk, read whole. The journal stays as it is.
    pub fn read_file(&mut self, alloc: Global, file: &FileName) -> Result<FileRead, FileFault>
        ensures told { D.tells self.old.disk ≡ true → IfOk result (IsWhole (D.seen self.old.disk file.now)) }
        ensures short { IfOk result IsShort }
        ensures given { IfOk result (IsGiven D.Disk self.old.disk file.now) }
        ensures journal { self.new ≡ record self.old { disk = self.new.disk } }
        ensures reads { OnlyReads D.Disk self.old.disk self.new.disk }
        ensures cause { result ≡ Err FileFault.DiskFault → HasRisen (D.faults self.old.disk) (D.faults self.new.disk) }
    {
        backend_files::read_file(alloc, &mut self.disk, file)
    }

    /// Whether the list has fewer than the most entries, and one more with a body of this size ends within the limit.
    pub fn fits(&self, body: usize) -> bool
        ensures exact { result ≡ has_room self.now.list body }
        ensures fits { (entry : List Item) → IsEntry entry → body ≡ length (spelled_on entry) → result ≡ true
            → IsList (self.now.list ++ entry ∷ []) }
    {
        is_room(self.list.len(), self.place - self.start, body)
    }

    /// Closes the gate in doubt: the header gate, where that isn't open for good. A journal without a doubt is left as
    /// it is.
    pub fn settle(&mut self) -> Result<(), Failed>
        ensures sure { self.old.in_doubt ≡ false → self.new ≡ self.old }
        ensures ok { OnOk result (self.new.in_doubt ≡ false) }
        ensures err { OnErr result (self.new.in_doubt ≡ true) }
        ensures same { IsSame self.old self.new }
        ensures step { IsStep D.Disk self.old self.new result }
        ensures passes { SettlesList D.Disk self.old self.new result }
        ensures bares { SettlesHead D.Disk self.old self.new result }
    {
        if !self.in_doubt {
            return Ok(());
        }
        close_gate(&mut self.disk, &self.name, self.place)?;
        self.in_doubt = false;
        Ok(())
    }

    /// Puts the head of the journal, as `journal_codec::encode_header` gives it: it is written behind the closed header
    /// gate, and then the gate is opened. After `Err` the header gate is in doubt.
    pub fn put_header(&mut self, header: &[u8]) -> Result<(), Failed>
        requires bare { self.old.headed ≡ false }
        requires sure { self.old.in_doubt ≡ false }
        requires header { IsHeaderBytes header.now }
        ensures ok { OnOk result ((self.new.headed ≡ true) × (self.new.in_doubt ≡ false) × (self.new.start ≡ length header.now)) }
        ensures err { OnErr result ((self.new.headed ≡ false) × (self.new.in_doubt ≡ true)) }
        ensures list { self.new.list ≡ self.old.list }
        ensures step { IsStep D.Disk self.old self.new result }
        ensures passes { PutsHeader D.Disk self.old self.new result header.now }
    {
        self.in_doubt = true;
        put_header(&mut self.disk, &self.name, header)?;
        self.headed = true;
        self.start = header.len() as u64;
        self.place = self.start;
        self.in_doubt = false;
        Ok(())
    }

    /// Writes the length and the body of an entry and a closed gate, as `journal_codec::encode` gives them, behind the
    /// closed gate.
    pub fn put_body(&mut self, encoded: &[u8]) -> Result<(), Failed>
        requires headed { self.old.headed ≡ true }
        requires sure { self.old.in_doubt ≡ false }
        ensures same { IsSame self.old self.new × (self.new.in_doubt ≡ false) }
        ensures step { IsStep D.Disk self.old self.new result }
        ensures body { D.tells self.old.disk ≡ true → (entry : List Item) → encoded.now ≡ behind_gate entry ++ 0 ∷ []
            → OnOk result (HasBodyBehind (D.may_leave self.new.disk) self.old.start self.old.list entry) }
        ensures passes { StaysListed D.Disk self.old self.new result }
    {
        put_body(&mut self.disk, &self.name, self.place, encoded)
    }

    /// Opens the gate behind the list on the body of these files that was just put. After `Err` the files are dropped.
    pub fn open_gate(&mut self, files: List<FileText>) -> Result<(), Failed>
        requires headed { self.old.headed ≡ true }
        requires sure { self.old.in_doubt ≡ false }
        requires fits { IsList (self.old.list ++ files ∷ []) }
        requires body { D.tells self.old.disk ≡ true
            → HasBodyBehind (D.may_leave self.old.disk) self.old.start self.old.list files }
        ensures ok { OnOk result ((self.new.in_doubt ≡ false) × (self.new.list ≡ self.old.list ++ files ∷ [])) }
        ensures err { OnErr result ((self.new.in_doubt ≡ true) × (self.new.list ≡ self.old.list)) }
        ensures head { (self.new.headed ≡ true) × (self.new.start ≡ self.old.start) }
        ensures step { IsStep D.Disk self.old self.new result }
        ensures passes { OpensGate D.Disk self.old self.new result files }
    {
        let end = self.place + HEAD as u64 + body_size(files.as_slice());
        self.in_doubt = true;
        open_gate(&mut self.disk, &self.name, self.place)?;
        self.in_doubt = false;
        self.place = end;
        self.list.push_reserved(files);
        Ok(())
    }

    /// How many files the entries of the list name.
    pub fn pending(&self) -> usize
        ensures { result ≡ length (pending_in self.now.list) }
    {
        count_pending(self.list.as_slice())
    }

    /// Gives the file at this place among those that the entries of the list name, by name, its last content.
    pub fn apply(&mut self, i: usize) -> Result<(), Failed>
        requires sure { self.old.in_doubt ≡ false }
        requires within { i < length (pending_in self.old.list) }
        ensures same { IsSame self.old self.new × (self.new.in_doubt ≡ false) }
        ensures step { IsStep D.Disk self.old self.new result }
        ensures puts { D.tells self.old.disk ≡ true → (content : Content)
            → slice_get (pending_in self.old.list) i ≡ Some content
            → PutsFile D.Disk self.old.disk self.new.disk result (record { file = content.0; bytes = content.1 }) }
        ensures applied { D.tells self.old.disk ≡ true → HasBroughtTo (D.may_leave self.old.disk) self.old.list i
            → OnOk result (HasBroughtTo (D.may_leave self.new.disk) self.old.list (i + 1)) }
        ensures passes { StaysListed D.Disk self.old self.new result }
    {
        put_pending(&mut self.disk, self.list.as_slice(), i)
    }

    /// Closes the gate before a list whose files all have their last contents. The list is empty then, also after
    /// `Err`.
    pub fn close_gate(&mut self) -> Result<(), Failed>
        requires headed { self.old.headed ≡ true }
        requires sure { self.old.in_doubt ≡ false }
        requires applied { D.tells self.old.disk ≡ true
            → HasBroughtTo (D.may_leave self.old.disk) self.old.list (length (pending_in self.old.list)) }
        ensures ok { OnOk result (self.new.in_doubt ≡ false) }
        ensures err { OnErr result (self.new.in_doubt ≡ true) }
        ensures head { (self.new.headed ≡ true) × (self.new.start ≡ self.old.start) }
        ensures list { self.new.list ≡ [] }
        ensures step { IsStep D.Disk self.old self.new result }
        ensures passes { ClosesGate D.Disk self.old self.new result }
    {
        self.shut()
    }

    /// Gives each file of the list its last content, and closes the list. After a failure in a file the journal lags
    /// still; after one of the closing it is empty and in doubt.
    pub fn finish(&mut self) -> Result<(), Failed>
        requires headed { self.old.headed ≡ true }
        requires sure { self.old.in_doubt ≡ false }
        ensures ok { OnOk result ((self.new.in_doubt ≡ false) × (self.new.list ≡ [])) }
        ensures lag { OnErr result (self.new.in_doubt ≡ false → self.new.list ≡ self.old.list) }
        ensures doubt { OnErr result (self.new.in_doubt ≡ true → self.new.list ≡ []) }
        ensures head { (self.new.headed ≡ true) × (self.new.start ≡ self.old.start) }
        ensures step { IsStep D.Disk self.old self.new result }
        ensures passes { FinishesList D.Disk self.old self.new result }
    {
        bring_in(&mut self.disk, self.list.as_slice())?;
        self.shut()
    }

    /// Closes the gate before the list, whatever is known of it.
    fn shut(&mut self) -> Result<(), Failed>
        requires headed { self.old.headed ≡ true }
        ensures ok { OnOk result (self.new.in_doubt ≡ false) }
        ensures err { OnErr result (self.new.in_doubt ≡ true) }
        ensures head { (self.new.headed ≡ true) × (self.new.start ≡ self.old.start) }
        ensures list { self.new.list ≡ [] }
        ensures step { IsStep D.Disk self.old self.new result }
        ensures passes { SettlesList D.Disk (record self.old { list = [] }) self.new result }
    {
        self.list.clear();
        self.place = self.start;
        self.in_doubt = true;
        self.settle()
    }
}

/// Whether there is room for one more entry with a body of this size behind so many entries, which end at this place.
fn is_room(count: usize, place: u64, body: usize) -> bool
    requires { place ≤ last_place }
    ensures { result ≡ (nat_lt count most_entries && nat_le (place + head_size + body) last_place) }
{
    count < MOST_ENTRIES && (place + HEAD as u64).saturating_add(body as u64) <= LAST_PLACE
}

//! The disk.
ghost use Rattle.std.specs.Prelude.{◌≡◌, ◌≤◌, ◌↔◌, ◌⊎◌, ℕ, List, [], ◌∷◌, ◌++◌, map, length, take, drop, true, IsTrue, IsErr, IsSomeAnd, Contains, IfOk, OnOk, OnErr};
ghost use Rattle.std.specs.Io.{StartsWith};
ghost use Rattle.kdb_outside.specs.Bytes.{Fills};
ghost use Rattle.kdb_outside.specs.Calls.{next_count};
ghost use Rattle.kdb_outside.specs.Faults.{HasRisen, HasCause};
ghost use Rattle.kdb_outside.specs.Files.{written, ChangesTo, KeepsOthers, IsTorn, IsCutOrNot};
ghost use Rattle.kdb_outside.specs.Images.{IsImage, Only, IsTornWrite, IsTornCut, KeepsImages, KeepsOtherImages, Touches, Elapses};
ghost use Rattle.disk_memory.specs.declared.changes.Step.{Step};
ghost use Rattle.disk_memory.specs.declared.changes.Step.TheVariants.{Wrote, Cut, Synced};
ghost use Rattle.disk_memory.specs.DiskState.{file_of, HaveDistinctNames, begun, IsNextFailing, after_call, after_change, after_failure, seen_of, left_of, left_by, synced_of, moment_of, left_since_of};
ghost use Rattle.disk_memory.specs.DiskLaws.{reads_are_images, counts_at_present, only_at_present};

use crate::changes::{Change, Piece, Step};
use crate::crashes::left_by;
use crate::mem_files::{MemFile, apply_in, bytes_in, copies, stored};
use crate::places;
use kdb_outside::{Disk, Failed, FileName, Memory};
use std::alloc::Global;
use std::marker::Model;

/// A disk whose files lie in memory. Its calls are counted from 1. Those that its maker listed fail, and so does each
/// one after the first `stop_after` calls. A call that fails changes no file. It keeps what its calls changed, and so
/// tells what a crash may leave, now and at each moment so far.
#[derive(Drop)]
pub struct MemDisk {
    alloc: Global,
    files: Vec<MemFile>,
    initial: Vec<MemFile>,
    past: Vec<Change>,
    failing: Vec<u64>,
    stop_after: Option<u64>,
    calls: u64,
    faults: u64,
}

impl Model for MemDisk {
    ghost use Rattle.disk_memory.specs.DiskState.{DiskState, Agrees};

    ghost Value = { DiskState };

    ghost view = { λ d. record {
      initial = d.initial.items;
      past = d.past.items;
      failing = d.failing.items;
      stop_after = d.stop_after;
      calls = d.calls;
      faults = d.faults;
    } };

    ghost invariant = { λ d. Agrees d.initial.items d.past.items d.files.items };
}

impl MemDisk {
    pub fn new(
        alloc: Global,
        files: Vec<(FileName, Vec<u8>)>,
        failing: Vec<u64>,
        stop_after: Option<u64>,
    ) -> Result<MemDisk, Memory>
        requires { HaveDistinctNames files.items }
        ensures { IfOk result (λ disk. disk ≡ begun (map file_of files.items) failing.items stop_after) }
    {
        MemDisk::begin_with(alloc, stored(alloc, files)?, failing, stop_after)
    }

    /// A disk with these files.
    fn begin_with(
        alloc: Global,
        initial: Vec<MemFile>,
        failing: Vec<u64>,
        stop_after: Option<u64>,
    ) -> Result<MemDisk, Memory>
        ensures { IfOk result (λ disk. disk ≡ begun initial.items failing.items stop_after) }
    {
        Ok(MemDisk {
            alloc,
            files: copies(alloc, &initial)?,
            initial,
            past: Vec::new(alloc),
            failing,
            stop_after,
            calls: 0,
            faults: 0,
        })
    }

    /// The disk that a crash leaves, where no call fails: one image, which the number chooses. 0 leaves of each file
    /// what its last sync kept, or what it was at first, 1 what a read gives, and any other number something between.
    pub fn crash(self, choice: u64) -> Result<MemDisk, Memory>
        ensures chosen { IfOk result (λ disk. (file : List ℕ) → seen_of disk file ≡ left_by choice self file) }
        ensures fresh { IfOk result (λ disk. disk ≡ begun disk.initial [] None) }
        ensures image { IfOk result (λ disk. IsImage (left_of self) (seen_of disk)) }
        ensures sure { IfOk result (λ disk. (file : List ℕ) → Only (seen_of disk file) (left_of disk file)) }
        ensures synced { choice ≡ 0 → IfOk result (λ disk. (file : List ℕ) → seen_of disk file ≡ synced_of self file) }
        ensures whole { choice ≡ 1 → IfOk result (λ disk. (file : List ℕ) → seen_of disk file ≡ seen_of self file) }
    {
        let left = left_by(self.alloc, choice, &self.initial, &self.past)?;
        MemDisk::begin_with(self.alloc, left, Vec::new(self.alloc), None)
    }

    /// How many calls there were. At its type's end the count stands still.
    pub fn calls(&self) -> u64
        ensures { result ≡ self.now.calls }
    {
        self.calls
    }

    /// What a read of the whole file gives: nothing where the file is missing.
    pub fn bytes(&self, file: &FileName) -> &[u8]
        ensures { result.now ≡ seen_of self.now file.now }
    {
        bytes_in(&self.files, file)
    }

    fn fails_next(&self) -> bool
        ensures { IsTrue result ↔ IsNextFailing self.now }
    {
        is_failing(&self.failing, self.stop_after, self.calls)
    }

    /// Counts the call that begins, which fails at once if it has to.
    fn begin(&mut self) -> Result<(), Failed>
        ensures listed { IsErr result ↔ IsNextFailing self.old }
        ensures ok { OnOk result (self.new ≡ after_call self.old) }
        ensures err { OnErr result (self.new ≡ after_failure self.old) }
        ensures cause { HasCause self.old.faults self.new.faults result }
        ensures later { self.old.faults ≤ self.new.faults }
    {
        let fails = self.fails_next();
        self.calls = self.calls.saturating_add(1);
        if fails {
            return Err(self.fail());
        }
        Ok(())
    }

    /// Counts a failure of the call that has begun.
    fn fail(&mut self) -> Failed
        ensures next { self.new ≡ record self.old { faults = next_count self.old.faults } }
        ensures cause { HasRisen self.old.faults self.new.faults }
        ensures later { self.old.faults ≤ self.new.faults }
    {
        self.faults = self.faults.saturating_add(1);
        Failed
    }

    /// Makes a step on a file and records it. Memory for the record is taken first.
    fn make(&mut self, file: &FileName, step: Result<Step, Memory>) -> Result<(), Memory>
        ensures ok { OnOk result ((made : Step) × (step ≡ Ok made)
            × (self.new ≡ record self.old { past = self.old.past ++ record { file = file.now; step = made } ∷ [] })) }
        ensures err { OnErr result (self.new ≡ self.old) }
    {
        let change = Change {
            file: file.copy()?,
            step: step?,
        };
        self.past.reserve(1)?;
        apply_in(self.alloc, &mut self.files, &change)?;
        self.past.push_reserved(change);
        Ok(())
    }

    /// Makes a step on a file as a call that is counted.
    fn call(&mut self, file: &FileName, step: Result<Step, Memory>) -> Result<(), Failed>
        ensures listed { IsNextFailing self.old → IsErr result }
        ensures ok { OnOk result ((made : Step) × (step ≡ Ok made)
            × (self.new ≡ after_change (record { file = file.now; step = made }) self.old)) }
        ensures failed { OnErr result (self.new ≡ after_failure self.old) }
        ensures cause { HasCause self.old.faults self.new.faults result }
        ensures later { self.old.faults ≤ self.new.faults }
    {
        self.begin()?;
        match self.make(file, step) {
            Ok(()) => Ok(()),
            Err(_) => Err(self.fail()),
        }
    }
}

/// Whether the call that comes after so many calls is a listed one, or comes after the last that may go through.
fn is_failing(failing: &[u64], stop_after: Option<u64>, calls: u64) -> bool
    ensures { IsTrue result ↔ (Contains failing.now (next_count calls) ⊎ IsSomeAnd stop_after (λ last. last ≤ calls)) }
{
    let is_past = stop_after.is_some_and(|last| last <= calls);
    is_past || failing.contains(&calls.saturating_add(1))
}

impl Disk for MemDisk {
    ghost tells = { λ _. true };

    ghost seen = { seen_of };

    ghost may_leave = { left_of };

    ghost moment = { moment_of };

    ghost left_since = { left_since_of };

    ghost faults = { λ disk. disk.faults };

    ghost gives = { λ disk file at bytes. StartsWith (drop at (seen_of disk file)) bytes };

    ghost read_is_image = { λ disk _. reads_are_images disk };

    ghost counts_now = { λ disk since image _. counts_at_present disk since image };

    ghost only_now = { λ disk image _. only_at_present disk image };

    fn length(&mut self, file: &FileName) -> Result<u64, Failed>
        ensures listed { IsErr result ↔ IsNextFailing self.old }
        ensures ok { OnOk result (self.new ≡ after_call self.old) }
        ensures failed { OnErr result (self.new ≡ after_failure self.old) }

        ensures told { IfOk result (λ n. n ≡ length (seen_of self.old file.now)) }
        ensures same { seen_of self.new ≡ seen_of self.old }
        ensures images { KeepsImages (left_of self.old) (left_of self.new) }
        ensures time { Elapses (moment_of self.old) (left_since_of self.old) (left_since_of self.new) (left_of self.new) }
        ensures moment { moment_of self.old ≤ moment_of self.new }
        ensures cause { HasCause self.old.faults self.new.faults result }
        ensures later { self.old.faults ≤ self.new.faults }
    {
        self.begin()?;
        Ok(self.bytes(file).len() as u64)
    }

    fn read_at(&mut self, file: &FileName, at: u64, buf: &mut [u8]) -> Result<usize, Failed>
        ensures listed { IsErr result ↔ IsNextFailing self.old }
        ensures ok { OnOk result (self.new ≡ after_call self.old) }
        ensures failed { OnErr result (self.new ≡ after_failure self.old) }
        ensures untouched { OnErr result (buf.new ≡ buf.old) }

        ensures within { IfOk result (λ n. n ≤ length buf.old) }
        ensures given { IfOk result (λ n. StartsWith (drop at (seen_of self.old file.now)) (take n buf.new)) }
        ensures told { IfOk result (λ n. Fills (drop at (seen_of self.old file.now)) buf.old buf.new n) }
        ensures same { seen_of self.new ≡ seen_of self.old }
        ensures images { KeepsImages (left_of self.old) (left_of self.new) }
        ensures time { Elapses (moment_of self.old) (left_since_of self.old) (left_since_of self.new) (left_of self.new) }
        ensures moment { moment_of self.old ≤ moment_of self.new }
        ensures cause { HasCause self.old.faults self.new.faults result }
        ensures later { self.old.faults ≤ self.new.faults }
    {
        self.begin()?;
        Ok(places::fill(self.bytes(file), at as usize, buf))
    }

    fn write_at(&mut self, file: &FileName, at: u64, bytes: &[u8]) -> Result<(), Failed>
        requires { at ≤ length (seen_of self.old file.now) }
        ensures listed { IsNextFailing self.old → IsErr result }
        ensures ok { OnOk result (self.new ≡ after_change (record { file = file.now; step = Wrote at bytes.now }) self.old) }
        ensures failed { OnErr result (self.new ≡ after_failure self.old) }

        ensures written { OnOk result
            (ChangesTo file.now (written (seen_of self.old file.now) at bytes.now) (seen_of self.old) (seen_of self.new)) }
        ensures torn { OnErr result (IsTorn (seen_of self.old file.now) at (length bytes.now) (seen_of self.new file.now)) }
        ensures others { KeepsOthers file.now (seen_of self.old) (seen_of self.new) }
        ensures images { Touches file.now (IsTornWrite at bytes.now) (left_of self.old) (left_of self.new) }
        ensures time { Elapses (moment_of self.old) (left_since_of self.old) (left_since_of self.new) (left_of self.new) }
        ensures moment { moment_of self.old ≤ moment_of self.new }
        ensures cause { HasCause self.old.faults self.new.faults result }
        ensures later { self.old.faults ≤ self.new.faults }
    {
        let step = Step::wrote(self.alloc, at, bytes);
        self.call(file, step)
    }

    fn cut(&mut self, file: &FileName, new_length: u64) -> Result<(), Failed>
        requires { new_length ≤ length (seen_of self.old file.now) }
        ensures listed { IsNextFailing self.old → IsErr result }
        ensures ok { OnOk result (self.new ≡ after_change (record { file = file.now; step = Cut new_length }) self.old) }
        ensures failed { OnErr result (self.new ≡ after_failure self.old) }

        ensures cut { OnOk result (ChangesTo file.now (take new_length (seen_of self.old file.now)) (seen_of self.old) (seen_of self.new)) }
        ensures cut_or_not { OnErr result (IsCutOrNot (seen_of self.old file.now) new_length (seen_of self.new file.now)) }
        ensures others { KeepsOthers file.now (seen_of self.old) (seen_of self.new) }
        ensures images { Touches file.now (IsTornCut new_length) (left_of self.old) (left_of self.new) }
        ensures time { Elapses (moment_of self.old) (left_since_of self.old) (left_since_of self.new) (left_of self.new) }
        ensures moment { moment_of self.old ≤ moment_of self.new }
        ensures cause { HasCause self.old.faults self.new.faults result }
        ensures later { self.old.faults ≤ self.new.faults }
    {
        self.call(file, Ok(Step::Cut { new_length }))
    }

    fn sync(&mut self, file: &FileName) -> Result<(), Failed>
        ensures listed { IsNextFailing self.old → IsErr result }
        ensures ok { OnOk result (self.new ≡ after_change (record { file = file.now; step = Synced }) self.old) }
        ensures failed { OnErr result (self.new ≡ after_failure self.old) }

        ensures same { seen_of self.new ≡ seen_of self.old }
        ensures synced { OnOk result (Only (seen_of self.old file.now) (left_of self.new file.now)) }
        ensures pending { OnErr result (KeepsImages (left_of self.old) (left_of self.new)) }
        ensures others { KeepsOtherImages file.now (left_of self.old) (left_of self.new) }
        ensures time { Elapses (moment_of self.old) (left_since_of self.old) (left_since_of self.new) (left_of self.new) }
        ensures moment { moment_of self.old ≤ moment_of self.new }
        ensures cause { HasCause self.old.faults self.new.faults result }
        ensures later { self.old.faults ≤ self.new.faults }
    {
        self.call(file, Ok(Step::Synced))
    }

    fn release(&mut self)
        ensures { self.new ≡ self.old }
    {}
}

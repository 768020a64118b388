//! The files of a store.
ghost use Rattle.std.specs.Prelude.{◌≡◌, ℕ, ◌≤◌, List, length, take, drop, Bool, true, IfOk, OnOk, OnErr};
ghost use Rattle.kdb_outside.specs.Faults.{HasCause};
ghost use Rattle.kdb_outside.specs.Bytes.{Fills};
ghost use Rattle.kdb_outside.specs.Files.{written, KeepsOthers, ChangesTo, IsTorn, IsCutOrNot};
ghost use Rattle.kdb_outside.specs.Images.{Image, IsImage, Only, IsTornWrite, IsTornCut, KeepsImages, KeepsOtherImages, Touches, Elapses};

use crate::{Failed, FileName};

/// Files by their names. A missing file is an empty one.
///
/// Files are independent of each other. A crash leaves one image of all files: of each file something that a crash may
/// leave of it. What was written or cut since the last good sync of a file may be there whole, in part or with other
/// bytes; what was synced is there.
pub trait Disk {
    /// Whether the disk tells its contents, its images and its moments. A real disk doesn't.
    ghost tells: { Self → Bool };

    /// The bytes that a read of each file gives. Nothing is said of them where the disk doesn't tell.
    ghost seen: { Self → List ℕ → List ℕ };

    /// The bytes that a crash now may leave of each file.
    ghost may_leave: { Self → List ℕ → List ℕ → Type 0 };

    /// The present moment, a number that never falls.
    ghost moment: { Self → ℕ };

    /// The images that a crash at some moment since this one might have left.
    ghost left_since: { Self → ℕ → Image → Type 0 };

    /// How often it has failed. At the type's end the count stands still.
    ghost faults: { Self → ℕ };

    /// The bytes that a read of a file from a place on may give, also where the disk doesn't tell. Nothing else is said
    /// of them, so whoever hands on what was read hands on what a read gave.
    ghost gives: { Self → List ℕ → ℕ → List ℕ → Type 0 };

    /// What a read gives is an image.
    ghost read_is_image: { (disk : Self) → tells disk ≡ true → IsImage (may_leave disk) (seen disk) };

    /// What a crash now may leave counts among what it might have left since any moment up to now.
    ghost counts_now: { (disk : Self) (since : ℕ) (image : Image) → tells disk ≡ true → since ≤ moment disk
        → IsImage (may_leave disk) image → left_since disk since image };

    /// What a crash since the present moment might have left is what it may leave now.
    ghost only_now: { (disk : Self) (image : Image) → tells disk ≡ true → left_since disk (moment disk) image
        → IsImage (may_leave disk) image };

    /// The length of a file in bytes. A missing file has none.
    fn length(&mut self, file: &FileName) -> Result<u64, Failed>
        ensures told { tells self.old ≡ true → IfOk result (λ n. n ≡ length (seen self.old file.now)) }
        ensures same { tells self.old ≡ true → seen self.new ≡ seen self.old }
        ensures images { tells self.old ≡ true → KeepsImages (may_leave self.old) (may_leave self.new) }
        ensures time { tells self.old ≡ true
            → Elapses (moment self.old) (left_since self.old) (left_since self.new) (may_leave self.new) }
        ensures moment { moment self.old ≤ moment self.new }
        ensures tells { tells self.new ≡ tells self.old }
        ensures cause { HasCause (faults self.old) (faults self.new) result }
        ensures later { faults self.old ≤ faults self.new };

    /// Reads from the place `at` up to the end of the buffer or of the file, and answers how many bytes.
    fn read_at(&mut self, file: &FileName, at: u64, buf: &mut [u8]) -> Result<usize, Failed>
        ensures within { IfOk result (λ n. n ≤ length buf.old) }
        ensures given { IfOk result (λ n. gives self.old file.now at (take n buf.new)) }
        ensures told { tells self.old ≡ true
            → IfOk result (λ n. Fills (drop at (seen self.old file.now)) buf.old buf.new n) }
        ensures same { tells self.old ≡ true → seen self.new ≡ seen self.old }
        ensures images { tells self.old ≡ true → KeepsImages (may_leave self.old) (may_leave self.new) }
        ensures time { tells self.old ≡ true
            → Elapses (moment self.old) (left_since self.old) (left_since self.new) (may_leave self.new) }
        ensures moment { moment self.old ≤ moment self.new }
        ensures tells { tells self.new ≡ tells self.old }
        ensures cause { HasCause (faults self.old) (faults self.new) result }
        ensures later { faults self.old ≤ faults self.new };

    /// Writes the bytes at the place `at`, at the end of the file or before it. A missing file is made. A failed write
    /// leaves any bytes in its range, and any length up to the one that it would have reached.
    fn write_at(&mut self, file: &FileName, at: u64, bytes: &[u8]) -> Result<(), Failed>
        requires { tells self.old ≡ true → at ≤ length (seen self.old file.now) }
        ensures written { tells self.old ≡ true → OnOk result
            (ChangesTo file.now (written (seen self.old file.now) at bytes.now) (seen self.old) (seen self.new)) }
        ensures torn { tells self.old ≡ true → OnErr result
            (IsTorn (seen self.old file.now) at (length bytes.now) (seen self.new file.now)) }
        ensures others { tells self.old ≡ true → KeepsOthers file.now (seen self.old) (seen self.new) }
        ensures images { tells self.old ≡ true
            → Touches file.now (IsTornWrite at bytes.now) (may_leave self.old) (may_leave self.new) }
        ensures time { tells self.old ≡ true
            → Elapses (moment self.old) (left_since self.old) (left_since self.new) (may_leave self.new) }
        ensures moment { moment self.old ≤ moment self.new }
        ensures tells { tells self.new ≡ tells self.old }
        ensures cause { HasCause (faults self.old) (faults self.new) result }
        ensures later { faults self.old ≤ faults self.new };

    /// Cuts a file off at this length, which it has at least. A failed cut was made or not.
    fn cut(&mut self, file: &FileName, new_length: u64) -> Result<(), Failed>
        requires { tells self.old ≡ true → new_length ≤ length (seen self.old file.now) }
        ensures cut { tells self.old ≡ true → OnOk result
            (ChangesTo file.now (take new_length (seen self.old file.now)) (seen self.old) (seen self.new)) }
        ensures cut_or_not { tells self.old ≡ true → OnErr result
            (IsCutOrNot (seen self.old file.now) new_length (seen self.new file.now)) }
        ensures others { tells self.old ≡ true → KeepsOthers file.now (seen self.old) (seen self.new) }
        ensures images { tells self.old ≡ true
            → Touches file.now (IsTornCut new_length) (may_leave self.old) (may_leave self.new) }
        ensures time { tells self.old ≡ true
            → Elapses (moment self.old) (left_since self.old) (left_since self.new) (may_leave self.new) }
        ensures moment { moment self.old ≤ moment self.new }
        ensures tells { tells self.new ≡ tells self.old }
        ensures cause { HasCause (faults self.old) (faults self.new) result }
        ensures later { faults self.old ≤ faults self.new };

    /// Has a file kept as it is now: a crash then leaves what a read gives. After a failed sync what was pending still
    /// is.
    fn sync(&mut self, file: &FileName) -> Result<(), Failed>
        ensures same { tells self.old ≡ true → seen self.new ≡ seen self.old }
        ensures synced { tells self.old ≡ true
            → OnOk result (Only (seen self.old file.now) (may_leave self.new file.now)) }
        ensures pending { tells self.old ≡ true → OnErr result (KeepsImages (may_leave self.old) (may_leave self.new)) }
        ensures others { tells self.old ≡ true → KeepsOtherImages file.now (may_leave self.old) (may_leave self.new) }
        ensures time { tells self.old ≡ true
            → Elapses (moment self.old) (left_since self.old) (left_since self.new) (may_leave self.new) }
        ensures moment { moment self.old ≤ moment self.new }
        ensures tells { tells self.new ≡ tells self.old }
        ensures cause { HasCause (faults self.old) (faults self.new) result }
        ensures later { faults self.old ≤ faults self.new };

    /// Says that the disk is done with for now, so that others may use what it stands for: a disk over a folder gives
    /// its lock back, and takes it again at its next call. Nothing that a contract sees changes.
    fn release(&mut self)
        ensures { self.new ≡ self.old };
}

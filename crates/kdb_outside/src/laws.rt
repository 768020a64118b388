//! Laws of a run of calls on a disk, for the proofs of the crates above. Each is the contract of an empty function.
ghost use Rattle.std.specs.Prelude.{◌≡◌, ◌≢◌, ℕ, ◌+◌, ◌<◌, ◌≤◌, List, length, slice_get, Some, true};
ghost use Rattle.kdb_outside.specs.Images.{Image, IsTornWrite, IsTornCut, KeepsImages, KeepsOtherImages, Touches, Elapses};
ghost use Rattle.kdb_outside.specs.Frames.{GoesOn, OnlyReads};
ghost use Rattle.kdb_outside.specs.Crashes.{EveryImage, EverySince, EachOf, HasByte};

use crate::{Disk, FileName};

/// A property of the images of a disk.
pub trait ImageProperty {
    ghost holds: { Image → Type 0 };
}

/// A property of the contents of a file.
pub trait ContentProperty {
    ghost holds: { List ℕ → Type 0 };
}

/// What every image of a disk has, each crash since the present moment leaves.
pub fn a_run_begins_now<D: Disk, P: ImageProperty>(disk: &D)
    ensures { D.tells disk.now ≡ true → EveryImage (D.may_leave disk.now) P.holds
        → EverySince (D.left_since disk.now) (D.moment disk.now) P.holds }
{}

/// What each crash since a moment has left, each one does over one more call if every image behind the call has it.
pub fn a_run_goes_on_over_a_call<D: Disk, P: ImageProperty>(before: &D, after: &D)
    ensures { (since : ℕ) → since ≤ D.moment before.now → EverySince (D.left_since before.now) since P.holds
        → EveryImage (D.may_leave after.now) P.holds
        → Elapses (D.moment before.now) (D.left_since before.now) (D.left_since after.now) (D.may_leave after.now)
        → EverySince (D.left_since after.now) since P.holds }
{}

/// A call that leaves the images as they were, as a read, leaves each property of a run as it was.
pub fn a_run_goes_on_over_a_read<D: Disk, P: ImageProperty>(before: &D, after: &D)
    ensures images { EveryImage (D.may_leave before.now) P.holds
        → KeepsImages (D.may_leave before.now) (D.may_leave after.now)
        → EveryImage (D.may_leave after.now) P.holds }
    ensures moments { (since : ℕ) → since ≤ D.moment before.now → EverySince (D.left_since before.now) since P.holds
        → EveryImage (D.may_leave before.now) P.holds → KeepsImages (D.may_leave before.now) (D.may_leave after.now)
        → Elapses (D.moment before.now) (D.left_since before.now) (D.left_since after.now) (D.may_leave after.now)
        → EverySince (D.left_since after.now) since P.holds }
{}

/// Calls that only read, one after the other, are one such call, and so is no call.
pub fn reads_are_one_read<D: Disk>(before: &D, between: &D, after: &D)
    ensures none { OnlyReads D.Disk before.now before.now }
    ensures two { OnlyReads D.Disk before.now between.now → OnlyReads D.Disk between.now after.now
        → OnlyReads D.Disk before.now after.now }
{}

/// Calls that go on, one after the other, are one such call, and a call that only reads goes on.
pub fn calls_go_on_as_one<D: Disk>(before: &D, between: &D, after: &D)
    ensures read { OnlyReads D.Disk before.now after.now → GoesOn D.Disk before.now after.now }
    ensures two { GoesOn D.Disk before.now between.now → GoesOn D.Disk between.now after.now
        → GoesOn D.Disk before.now after.now }
{}

/// What a crash leaves of one file has the properties that it had before a call on another file.
pub fn calls_on_other_files_touch_no_property<D: Disk, Q: ContentProperty>(
    before: &D,
    after: &D,
    file: &FileName,
    other: &FileName,
)
    ensures { KeepsOtherImages file.now (D.may_leave before.now) (D.may_leave after.now) → other.now ≢ file.now
        → EachOf (D.may_leave before.now other.now) Q.holds → EachOf (D.may_leave after.now other.now) Q.holds }
{}

/// What everything that a crash leaves of a file has, each image has at that file.
pub fn images_have_what_contents_have<D: Disk, Q: ContentProperty>(disk: &D, file: &FileName)
    ensures { EachOf (D.may_leave disk.now file.now) Q.holds
        → EveryImage (D.may_leave disk.now) (λ image. Q.holds (image file.now)) }
{}

/// A weaker property holds wherever a property does.
pub fn weaker_properties_hold_too<D: Disk, P: ImageProperty, Q: ImageProperty>(disk: &D)
    ensures images { ((image : Image) → P.holds image → Q.holds image) → EveryImage (D.may_leave disk.now) P.holds
        → EveryImage (D.may_leave disk.now) Q.holds }
    ensures moments { (since : ℕ) → ((image : Image) → P.holds image → Q.holds image)
        → EverySince (D.left_since disk.now) since P.holds
        → EverySince (D.left_since disk.now) since Q.holds }
{}

/// A byte that has one value in everything that a crash leaves of a file, and is written again with it, keeps it.
pub fn a_byte_written_again_stays<D: Disk>(before: &D, after: &D, file: &FileName)
    ensures { (at : ℕ) (bytes : List ℕ) (i value : ℕ) → i < length bytes → slice_get bytes i ≡ Some value
        → Touches file.now (IsTornWrite at bytes) (D.may_leave before.now) (D.may_leave after.now)
        → EachOf (D.may_leave before.now file.now) (HasByte (at + i) value)
        → EachOf (D.may_leave after.now file.now) (HasByte (at + i) value) }
{}

/// A byte outside the range of a write, or before the length of a cut, keeps its value in everything that a crash
/// leaves.
pub fn a_byte_out_of_reach_stays<D: Disk>(before: &D, after: &D, file: &FileName)
    ensures before_write { (at : ℕ) (bytes : List ℕ) (place value : ℕ) → place < at
        → Touches file.now (IsTornWrite at bytes) (D.may_leave before.now) (D.may_leave after.now)
        → EachOf (D.may_leave before.now file.now) (HasByte place value)
        → EachOf (D.may_leave after.now file.now) (HasByte place value) }
    ensures behind_write { (at : ℕ) (bytes : List ℕ) (place value : ℕ) → at + length bytes ≤ place
        → Touches file.now (IsTornWrite at bytes) (D.may_leave before.now) (D.may_leave after.now)
        → EachOf (D.may_leave before.now file.now) (HasByte place value)
        → EachOf (D.may_leave after.now file.now) (HasByte place value) }
    ensures before_cut { (new_length place value : ℕ) → place < new_length
        → Touches file.now (IsTornCut new_length) (D.may_leave before.now) (D.may_leave after.now)
        → EachOf (D.may_leave before.now file.now) (HasByte place value)
        → EachOf (D.may_leave after.now file.now) (HasByte place value) }
{}

//! The single commands of the tool: from the words of a command line to what it prints and the status that it ends
//! with.
#![tactic(auto)]

ghost use Rattle.std.specs.Prelude.{◌≡◌, ◌≢◌, ◌<◌, List, [], All, Some, ℕ};
ghost use Rattle.intent_journal.specs.Opened.{bad_place, unknown_version};
ghost use Rattle.journal_codec.specs.Entry.{journal_name, journal2_name};
ghost use Rattle.kdb_outside.specs.Faults.{HasRisen};
ghost use Rattle.kdb_outside.specs.Images.{Image};
ghost use Rattle.tool_single.specs.Answer.{Answer};
ghost use Rattle.tool_single.specs.Answers.{Answers};
ghost use Rattle.tool_single.specs.OneCommit.{IsOneCommit};
ghost use Rattle.tool_single.specs.Places.{HasOtherVersion, IsBadAt};
ghost use Rattle.model_specified.specs.Violations.{IsNoPattern, MayBeRefused};

mod answering;
mod answers;
mod checking;
mod delivery;
mod importing;
mod questions;
mod reading;
mod runs;
mod setting;
mod tool;
mod work;

pub use answers::{Ended, Stop};
pub use delivery::finish;
pub use questions::{given_back, refuse_opening};
pub use reading::take_all;
pub use runs::{one_run, runs_have_one_history};
pub use tool::run_one;
pub use tool_commands::Status;
pub use work::without_store;

/// A command line has one answer over its input and the files of a store, where a text is refused as a pattern only if
/// it is none. That is the answer which a run tells by which the matcher's count of refusals didn't rise. Where it
/// rose, a run tells one of those that there are if besides the texts that are no patterns others may be refused.
pub fn words_have_one_answer()
    ensures one { (words : List (List ℕ)) (input : List ℕ) (files : List ℕ → List ℕ) (a b : Answer)
        → Answers IsNoPattern words input files a → Answers IsNoPattern words input files b → a ≡ b }
    ensures told { (before now : ℕ) → (HasRisen before now → ⊥)
        → (words : List (List ℕ)) (input : List ℕ) (files : List ℕ → List ℕ) (a : Answer)
        → Answers (λ _. HasRisen before now) words input files a → Answers IsNoPattern words input files a }
    ensures among { (before now : ℕ) (words : List (List ℕ)) (input : List ℕ) (files : List ℕ → List ℕ) (a : Answer)
        → Answers (λ _. HasRisen before now) words input files a
        → Answers (MayBeRefused (HasRisen before now)) words input files a }
{}

/// A command line is never without an answer over an input and files, whatever its words and the bytes of the files: no
/// pattern need be refused for that.
pub fn words_have_an_answer()
    ensures { (words : List (List ℕ)) (input : List ℕ) (files : List ℕ → List ℕ)
        → ¬ ((answer : Answer) → ¬ Answers IsNoPattern words input files answer) }
{}

/// What a command line stores is one commit, which is legal on what the files mean: of mounts that aren't bad, within
/// the limits, and by the rules.
pub fn what_is_stored_is_one_legal_commit()
    ensures { (words : List (List ℕ)) (input : List ℕ) (files : List ℕ → List ℕ) (answer : Answer)
        → Answers (λ _. Unit {0}) words input files answer → answer.stored ≢ [] → IsOneCommit files answer.stored }
{}

/// The place that `run` tells of a broken journal of bytes: behind open entries that are whole, each followed by the
/// next, stands an open one that isn't, in `journal`, or else in `journal2`; or the header of that one isn't whole. An
/// entry that is too many for a list, or that ends behind the last place of one, is told at the front of its body, and
/// in `journal2` at its length; bytes that go wrong are told at the place where they do, and bytes of an entry or a
/// header that are fewer than the length at their end; and at no other place. In `journal` a place counts in the body,
/// and in `journal2` from the file's first byte.
pub fn a_broken_journal_is_told_by_its_place()
    ensures told { (seen : Image) (at : ℕ) → All (λ b. b < 256) (seen journal_name)
        → All (λ b. b < 256) (seen journal2_name) → bad_place seen ≡ Some at → IsBadAt seen at }
    ensures alone { (seen : Image) (at : ℕ) → All (λ b. b < 256) (seen journal_name)
        → All (λ b. b < 256) (seen journal2_name) → IsBadAt seen at → bad_place seen ≡ Some at }
{}

/// The version that `run` tells of a journal that this program doesn't know: the header gate of `journal2` is open
/// before it, and `journal` is whole.
pub fn an_unknown_journal_is_told_by_its_version()
    ensures told { (seen : Image) (version : ℕ) → All (λ b. b < 256) (seen journal_name)
        → unknown_version seen ≡ Some version → HasOtherVersion seen version }
    ensures alone { (seen : Image) (version : ℕ) → All (λ b. b < 256) (seen journal_name) → HasOtherVersion seen version
        → unknown_version seen ≡ Some version }
{}

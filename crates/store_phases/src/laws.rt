//! Facts about a journal that stands for a run. Nothing here runs: each function stands for its contract.
ghost use Rattle.kdb_outside.specs.Crashes.{EveryImage};
ghost use Rattle.kdb_outside.specs.Faults.{HasRisen};
ghost use Rattle.intent_journal.specs.Outcomes.{HasOnly};
ghost use Rattle.journal_steps.specs.Outcomes.{IsEither};
ghost use Rattle.intent_journal.specs.States.{IsCalm};
ghost use Rattle.model_crashes.specs.Runs.{Run, files_of};
ghost use Rattle.store_phases.specs.Stores.{IsStore};

use intent_journal::Journal;
use kdb_outside::Disk;

/// Between the calls of a run each image stands for its files, or for these with its doubt.
pub fn a_run_rests_between_its_calls<D: Disk>(journal: &Journal<D>)
    ensures { (opened : D) (run : Run) → IsStore D.Disk opened journal.now run
        → EveryImage (D.may_leave journal.now.disk) (HasOnly (IsEither (files_of run) run.doubt)) }
{}

/// Where no fault came since a run began, its disk is calm: the next opening finds what it needs.
pub fn a_run_without_a_fault_is_calm<D: Disk>(journal: &Journal<D>)
    ensures { (opened : D) (run : Run) → IsStore D.Disk opened journal.now run
        → ¬ HasRisen run.faults (D.faults journal.now.disk)
        → IsCalm (D.seen journal.now.disk) (D.may_leave journal.now.disk) (files_of run) run.doubt }
{}

/// A run that stands since an opening stands since any later moment at which no call goes on.
pub fn a_run_stands_from_now_on<D: Disk>(journal: &Journal<D>)
    ensures { (opened : D) (run : Run) → IsStore D.Disk opened journal.now run
        → IsStore D.Disk journal.now.disk journal.now run }
{}

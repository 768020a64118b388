//! The end of a store.
ghost use Rattle.store_core.specs.Closes.{ClosesStore};

use crate::Core;
use commit_log::History;
use kdb_outside::Disk;
use regex_check::Patterns;
use store_phases::close;

/// A store that was closed: its disk, its matcher, and the commits since its opening.
#[derive(Drop)]
pub struct Closed<D: Disk, P: Patterns + Drop> {
    pub disk: D,
    pub patterns: P,
    pub history: History,
}

impl<D: Disk, P: Patterns + Drop> Core<D, P> {
    /// Ends the store, and gives its disk, its matcher and its history back. What commits left to be written is written
    /// now, and a failure of it is no refusal. Where nothing was written since the opening began, nothing is written
    /// now.
    pub fn close(self) -> Closed<D, P>
        ensures { ClosesStore D.Disk self result }
    {
        let Core {
            journal,
            history,
            wrote,
            patterns,
            ..
        } = self;
        if !wrote && journal.is_fresh() {
            return Closed {
                disk: journal.into_disk(),
                patterns,
                history,
            };
        }
        Closed {
            disk: close(journal),
            patterns,
            history,
        }
    }
}

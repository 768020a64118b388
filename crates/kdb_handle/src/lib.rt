//! Up to 32 handles on threads over one open store. Each call is one turn at the store's core, and a handle knows the
//! commits that it has seen.
#![tactic(auto)]

mod closing;
mod deals;
mod entries;
mod flushing;
mod getting;
mod handles;
mod laws;
mod meeting;
mod merging;
mod replies;
mod setting;
mod shared;
mod stores;
mod taking_back;
mod turns;
mod undoing;
mod watching;

pub use deals::{FreeSeats, NoHandle};
pub use entries::StoryEntry;
pub use flushing::Flusher;
pub use handles::Handle;
pub use laws::{
    a_run_comes_to_its_story, an_accepted_set_is_still_prepared, an_undo_appends_the_inverse,
    an_undo_of_the_last_commit_gives_the_map_before_it, the_blocking_commit_is_anothers,
    the_commits_in_the_way_rise,
};
pub use merging::{MergeEnd, MergeFault, Merging, Tried};
pub use replies::{Reply, Transcripts};
pub use setting::SetFault;
pub use shared::Shared;
pub use stores::{Locked, NewStore, NotShared, SharedStore};
pub use undoing::UndoFault;

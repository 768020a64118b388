//! What the journal of a store is made of: the content of a file on its way into it, bytes that are written and synced
//! at once, what a gate tells, and why a journal isn't opened.
#![tactic(auto)]

mod applying;
mod faults;
mod names;
mod reading;
mod states;
mod writing;

pub use applying::put_file;
pub use faults::{JournalFault, JournalRefused};
pub use names::{name_of_journal, name_of_journal2};
pub use reading::length_in;
pub use states::State;
pub use writing::write_through;

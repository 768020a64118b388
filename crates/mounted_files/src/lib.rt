//! What the files of a mount table mean. Reading and storing them is the caller's.
#![tactic(auto)]

mod adding;
mod causes;
mod files;
mod holding;
mod laws;
mod mounted;
mod opening;
mod owned;
mod refusals;
mod table_file;
mod weighing;
mod whole;

pub use causes::Cause;
pub use files::{FileState, MountedFile};
pub use holding::{Holding, read_holding};
pub use laws::{files_have_one_opening, opened_files_have_a_table};
pub use mounted::Mounted;
pub use opening::Opening;
pub use refusals::{GetFault, OpenRefusal, fault_of};

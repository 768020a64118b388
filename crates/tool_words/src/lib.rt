//! The words of a command line: what they ask for, or why they are refused.
#![tactic(auto)]

mod arguments;
mod asking;
mod command_lines;
mod extents;
mod flows;
mod laws;
mod meta_names;
mod requests;
mod uses;
mod values;
mod ways;
mod words;

pub use arguments::are_none;
pub use extents::Extent;
pub use flows::Flow;
pub use laws::a_file_is_asked_for_of_keys_in_files;
pub use meta_names::MetaName;
pub use requests::{Action, Question, Refusal, Request};
pub use uses::Use;
pub use ways::Way;
pub use words::{lend_words, read_words};

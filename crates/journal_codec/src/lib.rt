//! The body of a journal's entry, some files' new contents, and the header of a journal, the names of all its files: as
//! bytes, and back.
#![tactic(auto)]

mod faults;
mod files;
mod forms;
mod headers;
mod laws;
mod names;
mod reading;
mod writing;

pub use faults::DecodeFault;
pub use files::FileText;
pub use forms::followed;
pub use headers::{decode_header, encode_header};
pub use laws::{
    a_body_fails_behind_its_longest_beginning, headers_read_what_is_spelled,
    listed_bodies_read_alike, reads_what_is_spelled, spells_what_is_read,
};
pub use reading::{decode, decode_listed};
pub use writing::encode;

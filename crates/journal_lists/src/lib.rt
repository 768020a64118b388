//! Lists of entries: each entry behind a gate, and behind a body whose count says so the next one. The file `journal`,
//! as the former program wrote it, holds such a list from its first byte on, and `journal2` behind a head that names
//! the files of its entries.
#![tactic(auto)]

mod decoding;
mod examples;
mod laws;
mod limits;
mod reading;
mod sizes;
mod starts;

pub use examples::{
    a_head_is_read_before_its_list, an_odd_gate_is_read_in_two_ways,
    open_bodies_are_refused_at_their_place, open_entries_are_read,
};
pub use laws::{
    a_former_journal_is_read_as_it_opens, a_journal_is_read_as_it_opens,
    a_write_behind_a_front_leaves_it, what_is_written_is_read_again,
};
pub use limits::{CLOSED, HEAD, LAST_PLACE, MOST_ENTRIES, OPEN};
pub use reading::{Found, read_former, read_journal};
pub use sizes::body_size;

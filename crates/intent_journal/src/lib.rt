//! A journal of many entries: a head that names the files of the table, behind a gate, and a list of entries with new
//! contents of these files, each behind a gate. An entry goes to the disk behind a closed gate, the gate opens, and the
//! files take their contents later, those of the whole list at once.
#![tactic(auto)]

mod bringing;
mod calm;
mod journal;
mod laws;
mod opening;
mod pending;
mod recovering;
mod retiring;
mod writing;

pub use bringing::bring_in;
pub use calm::{a_bare_disk_is_calm, a_listed_disk_is_calm, one_image_is_calm};
pub use journal::Journal;
pub use laws::{
    a_calm_disk_can_be_opened, a_former_image_reads_alike, a_list_is_read_again,
    an_opening_tells_what_it_read, an_unbroken_image_has_a_reading, the_old_form_is_calm_alike,
    the_old_form_reads_alike,
};

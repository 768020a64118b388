//! What a store sees of the world outside: a source, a sink, a disk and a gate, each with a written meaning.
#![tactic(auto)]

mod calls;
mod counts;
mod disks;
mod examples;
mod faults;
mod gates;
mod kinds;
mod laws;
mod mem_sinks;
mod mem_sources;
mod names;
mod readers;
mod sinks;
mod sources;
mod writers;

pub use disks::Disk;
pub use examples::{
    a_crash_tears_a_cut, a_crash_tears_a_write, a_crash_tears_no_more_than_a_cut,
    a_crash_tears_no_more_than_a_write, only_synced_bytes_are_sure,
};
pub use faults::{Failed, Memory};
pub use gates::{Gate, OpenGate};
pub use kinds::Kind;
pub use laws::{
    ContentProperty, ImageProperty, a_byte_out_of_reach_stays, a_byte_written_again_stays,
    a_run_begins_now, a_run_goes_on_over_a_call, a_run_goes_on_over_a_read, calls_go_on_as_one,
    calls_on_other_files_touch_no_property, images_have_what_contents_have, reads_are_one_read,
    weaker_properties_hold_too,
};
pub use mem_sinks::MemSink;
pub use mem_sources::{MemSource, SureSource};
pub use names::{FileName, the_test_of_file_names_decides};
pub use readers::ReaderSource;
pub use sinks::Sink;
pub use sources::Source;
pub use writers::WriterSink;

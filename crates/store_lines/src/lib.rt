//! The lines of what a store refuses: of its files, of a set, of its mount table and of its journal.
#![tactic(auto)]

mod refusals;
mod rule_lines;
mod table_lines;

pub use refusals::{
    bad_file, bad_journal, database_full, file_too_large, history_full, not_fetched, not_storable,
    too_heavy, too_long, unknown_journal, value_too_long,
};
pub use rule_lines::{broken_rule, invalid};
pub use table_lines::bad_table;

//! The check of patterns: which rule a value breaks under its metadata.
#![tactic(auto)]

mod checks;
mod last;
mod listed;
mod patterns;
mod regexes;

pub use checks::{check_pattern, check_pattern_again};
pub use last::LastPattern;
pub use listed::ListedPatterns;
pub use patterns::{Patterns, Search};
pub use regexes::RegexPatterns;

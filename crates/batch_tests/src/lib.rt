//! Tests of the sessions of a script on threads over a disk in memory, and of calls of the check rules and of looking
//! up.
#![tactic(auto)]

#[cfg(test)]
mod disks;
#[cfg(test)]
mod gates;
#[cfg(test)]
mod one_file;
#[cfg(test)]
mod rules;
#[cfg(test)]
mod sessions;

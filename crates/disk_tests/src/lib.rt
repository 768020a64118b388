//! Tests of the public calls of the outside, of disks and files, of a journal of many entries and of the runs of a
//! journal: of what no contract says, each call with ample memory. Sources and sinks in memory, calls of a disk in
//! memory, names of files and bodies of entries are cases of `kdb_cases`.
#![tactic(auto)]

#[cfg(test)]
mod crashes;
#[cfg(test)]
mod entries;
#[cfg(test)]
mod file_names;
#[cfg(test)]
mod mem_disks;
#[cfg(test)]
mod openings;
#[cfg(test)]
mod readers;
#[cfg(test)]
mod steps;
#[cfg(test)]
mod store_runs;
#[cfg(test)]
mod writers;

//! Tests of the public calls of names, metadata, maps and key sets, and of want of memory as a format's refusal: of
//! what no contract says, each call with ample memory. Tables of names and shown texts are cases of `kdb_cases`.
#![tactic(auto)]

#[cfg(test)]
mod chunked_maps;
#[cfg(test)]
mod key_sets;
#[cfg(test)]
mod metadata;
#[cfg(test)]
mod names;
#[cfg(test)]
mod refusals;
#[cfg(test)]
mod sorted_maps;

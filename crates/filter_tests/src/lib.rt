//! Tests of the filter over files and pairs in memory: what it sends on, what it answers, and what it closes. They are a
//! crate of their own since each is proved too. Stands on filter_top, pair_script and world_ports.
#![tactic(auto)]

#[cfg(test)]
mod fixtures;
#[cfg(test)]
mod play;
#[cfg(test)]
mod runs;

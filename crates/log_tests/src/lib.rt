//! Tests of a record's log over files and an output in memory: what it writes of records, and how it ends where a file or
//! a write fails. They are a crate of their own since each is proved too. Stands on log_core and world_ports.
#![tactic(auto)]

#[cfg(test)]
mod fixtures;
#[cfg(test)]
mod play;
#[cfg(test)]
mod runs;

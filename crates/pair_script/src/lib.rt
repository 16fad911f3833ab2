//! Pairs of connections in memory, which play a script: for tests of what serves pairs. Stands on pair_ports (the
//! trait), world_ports (what a connection of a script is answered) and plain_lists.
#![tactic(auto)]

mod calls;
mod cue;
mod ends;
mod outside;
mod pipe;
mod script;

pub use cue::PairCue;
pub use script::PairScript;

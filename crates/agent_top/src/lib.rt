//! The program over any input and output: `agent_main`, whose clauses are the main theorem.
//! Stands on replay_run, which runs a schedule, ready_loop, which serves over a world, and world_ports; the format of
//! schedules is this repository's own: docs/PROTOCOL.md, "Schedules".
#![tactic(auto)]

mod agent;
mod drilling;
mod laws;
mod recording;
mod serving;
mod status;
mod top;
mod words;

pub use laws::lawful_runs_tell_no_secret;
pub use status::Status;
pub use top::agent_main;

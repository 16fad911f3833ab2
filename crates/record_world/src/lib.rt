//! A world that records the calls on it: the lines of a schedule, without secrets
//! (docs/PROTOCOL.md, "Records"). Stands on redact_core, schedule_text and world_ports.
#![tactic(auto)]

mod due;
mod frames;
mod hears;
mod laws;
mod line;
mod notes;
mod peer;
mod recorder;
mod rows;
mod tape;

pub use laws::later_states;
pub use recorder::Recorder;
pub use rows::{
    a_bad_length_is_cut, a_child_is_held_once, a_lock_is_numbered, an_addition_is_blanked,
};
pub use tape::Tape;

//! The helper behind, as a program of the system that is started where it is first needed.
//! Stands on helper_core and frame_core.
#![tactic(auto)]

mod deadline;
mod program;
mod running;

pub use program::ProgramBehind;

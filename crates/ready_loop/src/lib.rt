//! The readiness loop: which call on the world comes next, and what the agent is told of its answer.
//! Stands on loop_model (which journals are legal), agent_model and agent_core (the agent's steps), lists and
//! world_ports.
#![tactic(auto)]

mod agent;
mod events;
mod hub;
mod listeners;
mod look;
mod marks;
mod outcome;
mod queue;
mod room;
mod serving;
mod standings;
mod things;
mod turn;

pub use agent::Core;
pub use hub::Hub;
pub use outcome::{HubFault, ServeEnd, Turn};
pub use serving::serve;

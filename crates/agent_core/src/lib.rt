//! The agent's core: one event of its clients at a time, with no input or output of its own.
//! Each step is one step of the abstract agent (agent_model), which answers requests of the SSH agent protocol
//! (draft-miller-ssh-agent). Stands on agent_model, identity_table, dest_rule, under_way, confirm_desk, agent_msg,
//! frame_core, secret_buf and lists.
#![tactic(auto)]

mod agent;
mod asker;
mod binding;
mod children;
mod confirmer;
mod counting;
mod event;
mod granted;
mod helper;
mod keys;
mod listing;
mod locking;
mod owed;
mod parts;
mod places;
mod ports;
mod requests;
mod role;
mod seen;
mod signing;
mod slot;
mod time;
mod waits;

pub use agent::Agent;
pub use event::{Event, Settings};

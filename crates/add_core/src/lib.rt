//! `ssh-add`: adds keys to an agent, removes and lists them, locks and unlocks it (ssh-add(1)), over
//! any files, connection, input and outputs. Stands on agent_msg, key_file, add_words, add_rules and
//! world_ports.
#![tactic(auto)]

mod exchange;
mod fault;
mod files;
mod hearing;
mod listing;
mod locking;
mod passphrase;
mod restriction;
mod sending;
mod tool;

pub use add_rules::DestFault;
pub use add_words::PurposeFault;
pub use fault::{AddFault, AddStatus};
pub use tool::add_main;
pub use world_ports::read_life;

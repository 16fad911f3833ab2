//! A helper that signs with stand-in keys, for tests: what it answers to the agent, and `helper_main`,
//! the program over any files and any connection (docs/PROTOCOL.md, "Messages of child processes").
//! Stands on child_peer and hmac_core.
#![tactic(auto)]

mod answer;
mod fault;
mod hosts;
mod keys;
mod laws;
mod program;
mod status;
mod stream;
#[cfg(test)]
mod tests;

pub use laws::{
    a_signature_is_by_the_secret_of_its_own_frame, answers_are_in_order, keys_are_read_exactly,
};
pub use program::helper_main;
pub use status::HelperStatus;

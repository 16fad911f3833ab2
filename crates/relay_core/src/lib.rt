//! The relay that asks the user: it runs the program that asks, and tells the agent what the user said.
//! `relay_main` is the program over any spawner and any connection, `verdict` what a run says
//! (docs/PROTOCOL.md, "Messages of child processes"). Stands on child_peer.
#![tactic(auto)]

mod asking;
mod consent;
mod hearing;
mod laws;
mod program;
mod prompt;
mod status;
#[cfg(test)]
mod tests;

pub use consent::verdict;
pub use laws::{a_prompt_is_plain_and_of_the_job, granted_only_by_a_consent};
pub use program::relay_main;
pub use status::RelayStatus;

//! What is signed with Ed25519 is accepted: laws alone.
#![tactic(auto)]

pub mod signatures;

//! The points of edwards25519 are a group: definitions and laws alone.
#![tactic(auto)]

pub mod edwards25519;

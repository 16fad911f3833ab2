//! The points of P-256, P-384 and P-521 are groups, and what their multiples are: definitions and laws alone.
#![tactic(auto)]

pub mod p256;
pub mod p384;
pub mod p521;

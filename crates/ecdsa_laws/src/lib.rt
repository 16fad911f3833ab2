//! What is signed with ECDSA over P-256, P-384 and P-521 verifies: laws alone.
#![tactic(auto)]

pub mod p256;
pub mod p384;
pub mod p521;

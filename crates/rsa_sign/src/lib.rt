//! Signatures by RSASSA-PKCS1-v1_5 of RFC 8017, section 8.2.1, with the primes of the key, of which only
//! those that verify leave.
//! Stands on `rsa_verify`, `rsa_powers`, `rsa_octets` and `rsa_numbers`.
#![tactic(auto)]

mod joining;
mod key;
mod part;
mod signing;
mod wipe;
mod words;

pub use key::Key;
pub use signing::{sign, sign_info};

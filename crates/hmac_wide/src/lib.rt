//! HMAC (RFC 2104) with SHA-384 and with SHA-512, over the crate `sha2`.
//! Stands on hmac_core's definitions alone.
//!
//! Takes no memory, and keeps no block of the key of its own.
#![tactic(auto)]

mod block;
mod hmac;
#[cfg(test)]
mod tests;

pub use hmac::{hmac_sha384, hmac_sha512};

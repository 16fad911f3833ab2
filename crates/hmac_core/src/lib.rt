//! HMAC (RFC 2104) with SHA-256 and with SHA-1, over the crates `sha2` and `sha1`.
//!
//! Takes no memory, and keeps no block of the key of its own.
#![tactic(auto)]

mod block;
mod hmac;
#[cfg(test)]
mod tests;

pub use hmac::{hmac_sha1, hmac_sha256};

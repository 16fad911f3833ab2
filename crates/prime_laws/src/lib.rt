//! That the p of P-256, P-384 and P-521 are primes, and what holds of each prime: definitions and laws
//! alone.
#![tactic(auto)]

pub mod p256;
pub mod p384;
pub mod p521;
pub mod primes;

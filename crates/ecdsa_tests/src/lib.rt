//! Tests of the crates of ECDSA by the vectors of RFC 6979, and by what they have to refuse.
//! Stands on p256_ecdsa, p384_ecdsa, p521_ecdsa and hex.
#![tactic(auto)]

#[cfg(test)]
mod p256_refused;
#[cfg(test)]
mod p256_vectors;
#[cfg(test)]
mod p384_refused;
#[cfg(test)]
mod p384_vectors;
#[cfg(test)]
mod p521_refused;
#[cfg(test)]
mod p521_vectors;

//! Tests of `ed25519` by the vectors of RFC 8032 and by signatures and keys that it has to refuse, and of
//! `signer_keys` by requests of which one is handed on. Stands on ed25519, signer_keys and hex.
#![tactic(auto)]

#[cfg(test)]
mod helper;
#[cfg(test)]
mod refused;
#[cfg(test)]
mod vectors;

//! Tests of `rsa_sign` and `rsa_verify` by a vector of RSA Laboratories and by what they have to refuse.
//! Stands on rsa_sign, rsa_verify and hex.
#![tactic(auto)]

#[cfg(test)]
mod vectors;

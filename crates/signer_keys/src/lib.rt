//! What a helper answers with Ed25519 keys, ECDSA keys over P-256, P-384 and P-521, and RSA keys, plain or certified:
//! `SignerKeys` signs and verifies, and hands on what asks for keys of other types. `signer_main` is the program over any
//! helper behind and any connection (docs/PROTOCOL.md, "Messages of child processes"). Stands on helper_core, on ed25519,
//! p256_ecdsa, p384_ecdsa, p521_ecdsa, rsa_sign and rsa_verify, and on ed25519_wire, ecdsa_wire and rsa_wire.
#![tactic(auto)]

mod answers;
mod ed25519_signatures;
mod erased;
mod keys;
mod laws;
mod numbers;
mod p256_signatures;
mod p384_signatures;
mod p521_signatures;
mod program;
mod public;
mod request;
mod rsa_signatures;
mod types;
mod verifying;

pub use keys::SignerKeys;
pub use laws::{a_known_key_stays, what_is_signed_verifies};
pub use program::signer_main;

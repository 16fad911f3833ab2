//! Ed25519 keys and signatures as SSH carries them, by themselves and in certificates: RFC 8709,
//! draft-miller-ssh-agent and OpenSSH's PROTOCOL.certkeys. Stands on key_wire. Nothing is copied.
#![tactic(auto)]

mod laws;
mod names;
mod pair;
mod signature;

pub use laws::{
    a_pair_has_the_key_of_its_blob, keys_are_read_exactly, signatures_are_read_exactly,
};
pub use names::{is_certified, is_ed25519, is_plain};
pub use pair::{Pair, read_authority, read_certified_key, read_pair, read_plain_key};
pub use signature::read_signature;

//! ECDSA keys and signatures over NIST's curves as SSH carries them, by themselves and in certificates: RFC 5656,
//! draft-miller-ssh-agent and OpenSSH's PROTOCOL.certkeys. Stands on key_wire. Nothing is copied.
#![tactic(auto)]

mod laws;
mod names;
mod pair;
mod public;
mod signature;

pub use laws::{
    a_pair_has_the_key_of_its_blob, keys_are_read_exactly, signatures_are_read_exactly,
};
pub use names::{Curve, KeyType, key_type};
pub use pair::{Pair, read_pair};
pub use public::{Public, read_certified_point, read_public};
pub use signature::{Numbers, read_signature};

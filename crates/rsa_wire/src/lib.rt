//! RSA keys and signatures as SSH carries them, by themselves and in certificates: RFC 4253, RFC 8332,
//! draft-miller-ssh-agent and OpenSSH's PROTOCOL.certkeys. Stands on key_wire. Nothing is copied.
#![tactic(auto)]

mod laws;
mod names;
mod numbers;
mod pair;
mod public;
mod signature;

pub use laws::{
    a_pair_has_the_key_of_its_blob, keys_are_read_exactly, signatures_are_read_exactly,
};
pub use names::{Algorithm, KeyType, key_type};
pub use pair::{Factors, Pair, read_pair};
pub use public::{Public, read_certified_public, read_public};
pub use signature::{Signature, read_signature};

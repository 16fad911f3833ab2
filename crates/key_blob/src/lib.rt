//! Public keys and certificates in the blobs of the SSH protocols, and keys as they are added to an
//! agent.
//!
//! Stands on `wire_core` for fields, on `secret_buf` for private bytes and on `pattern_core` for
//! the principals of certificates. The types are those of docs/PROTOCOL.md, "Keys".
#![tactic(auto)]

mod added;
mod certificate;
mod fault;
mod fields;
mod fingerprints;
mod form;
mod key_type;
mod kind;
mod laws;
mod public_key;
mod rows;
mod size;

pub use added::{AddedKey, private_from, read_added};
pub use certificate::valid_for;
pub use fault::KeyFault;
pub use fingerprints::fingerprint;
pub use kind::KeyKind;
pub use laws::{
    a_blob_is_one_key, a_number_of_an_addition_has_at_most_16384_digits,
    a_size_is_the_digits_of_the_modulus, an_addition_has_a_public_key, no_addition_begins_another,
};
pub use public_key::{Certificate, PublicKey, algorithm_fits, read_public, type_word};
pub use rows::{a_number_of_2048_bytes_is_taken, private_fields_stand_behind_the_public};
pub use size::bits;

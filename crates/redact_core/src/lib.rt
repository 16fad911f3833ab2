//! Bodies of requests to an agent without their secrets, as a record of what happened shows them.
//!
//! Each private field of an addition is as many zeros. The passphrase of a lock or an unlock is
//! the number, in decimal, under which it first came, counted from 1; an empty one stays. An
//! addition, a lock or an unlock that can't be read is its number byte alone, and so is a body of a
//! number that isn't served. Every other body stays as it is.
//!
//! Stands on `agent_msg` and `key_blob`, which read bodies, and on `secret_buf`, which keeps
//! passphrases.
#![tactic(auto)]

mod addition;
mod fault;
mod laws;
mod passphrases;
mod redact;
mod rows;

pub use fault::RedactFault;
pub use laws::{additions_stay_additions, secrets_are_hidden};
pub use passphrases::Passphrases;
pub use redact::redact_body;
pub use rows::{
    additions_are_blanked, certified_additions_are_blanked, other_bodies_stay,
    passphrases_are_numbered, what_is_not_served_is_its_number,
};

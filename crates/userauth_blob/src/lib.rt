//! What user authentication by a public key signs: the login that it is for (RFC 4252, section 7).
//!
//! Stands on `wire_core` for fields and on `key_blob` for keys.
#![tactic(auto)]

mod fault;
mod fields;
mod laws;
mod login;
mod method;
#[cfg(test)]
mod tests;
mod userauth;

pub use fault::AuthFault;
pub use laws::{
    a_message_is_for_one_login, a_reading_is_a_login,
    what_a_reader_of_its_own_blob_takes_is_a_login,
};
pub use login::read_login;
pub use userauth::{UserAuth, read_userauth};

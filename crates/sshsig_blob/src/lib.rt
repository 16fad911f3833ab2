//! What `ssh-keygen -Y sign` has a key sign: the fields of a file's signature (OpenSSH's
//! PROTOCOL.sshsig, "Signed Data").
//!
//! Stands on `wire_core` for fields; the law beside `userauth_blob` says that no login is one.
#![tactic(auto)]

mod fault;
mod fields;
mod laws;
mod sshsig;

pub use fault::SshsigFault;
pub use laws::{a_login_is_no_sshsig, a_message_is_in_one_namespace, a_reading_is_an_sshsig};
pub use sshsig::{SignedData, read_sshsig};

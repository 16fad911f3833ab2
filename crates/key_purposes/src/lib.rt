//! What a key's signatures may be for, and whether a message is for one of these purposes: a login (RFC 4252), a file's
//! signature in a namespace (OpenSSH's PROTOCOL.sshsig), a certificate (PROTOCOL.certkeys), or other data, which no
//! server takes as a login.
//!
//! Stands on `userauth_blob` and `sshsig_blob`, which read messages, and on `plain_lists`.
#![tactic(auto)]

mod fault;
mod laws;
mod message;
mod purpose;
mod reading;
mod rows;
mod suspicion;

pub use fault::PurposeFault;
pub use laws::{
    a_message_is_for_one_thing, other_is_no_login, purposes_are_those_of_the_grammars,
    words_name_purposes,
};
pub use message::{Use, let_sign, suit, use_of};
pub use purpose::{Purpose, put_word};
pub use reading::{add_purpose, read_purposes};
pub use rows::{
    a_certificate_is_for_its_purpose, a_login_is_by_any_blob_of_its_key,
    a_signature_for_a_purpose_is_not_by_sha1, each_message_has_its_use,
    what_may_log_in_is_no_other_data, words_are_read,
};

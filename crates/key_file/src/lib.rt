//! Keys as OpenSSH keeps them in files: private keys that aren't encrypted, and public keys.
//!
//! Stands on `key_blob` for the keys, on `wire_core` for fields and on `secret_buf` for private
//! bytes.
#![tactic(auto)]

mod body;
mod encoding;
mod fault;
mod fields;
mod laws;
mod line;
mod private_part;

pub use body::read_body;
pub use encoding::decoded;
pub use fault::{KeyFileFault, PubFault};
pub use laws::{
    a_body_is_written_again, a_reading_is_a_body, a_reading_is_a_line, a_reading_is_a_text,
    a_written_body_is_read, base64_is_read_exactly, blanks_change_nothing,
};
pub use line::{read_pub_line, read_typed};
pub use private_part::KeyFile;

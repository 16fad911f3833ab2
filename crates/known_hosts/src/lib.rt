//! The keys that a file of known hosts has for a host (sshd(8), "SSH_KNOWN_HOSTS FILE FORMAT").
//!
//! Stands on `key_file` for keys in base64, `pattern_core` for patterns and `hmac_core` for hashed
//! hosts.
#![tactic(auto)]

mod entry;
mod hosts;
mod keys;
mod laws;
mod parts;

pub use keys::host_keys;
pub use laws::{
    a_line_has_its_key, a_line_of_other_hosts_adds_nothing, a_revoked_line_adds_nothing,
    keys_stand_in_the_order_of_lines, lines_end_with_lf_or_cr_lf,
};

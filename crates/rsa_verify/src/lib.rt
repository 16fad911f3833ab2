//! Verification of RSA signatures by RSASSA-PKCS1-v1_5 of RFC 8017, section 8.2.2, with SHA-1, SHA-256
//! and SHA-512.
//! Stands on `rsa_powers`, `rsa_octets`, `rsa_numbers` and the kit's `sha2` and `sha1`.
#![tactic(auto)]

mod encoding;
mod hash;
mod modulus;
mod verification;

pub use encoding::{digest_info, encode};
pub use hash::Hash;
pub use modulus::has_size;
pub use verification::{verify, verify_info};

//! Ed25519 of RFC 8032, section 5.1: public keys, signatures and their verification.
//! Stands on `curve25519`, `scalar25519`, `words64` and the kit's `sha2`.
#![tactic(auto)]

mod erase;
mod hash;
mod keys;
mod sign;
mod verification;

pub use curve25519_multiples::BaseTable;
pub use erase::sign_erased;
pub use keys::public_key;
pub use sign::sign_checked;
pub use verification::verify;

//! ECDSA over P-256: signatures by RFC 6979 and their verification by FIPS 186-5, with SHA-256.
//! Stands on `p256_multiples`, `p256_curve`, `p256_field`, `p256_order`, `wide_words`, `hmac_core` and the kit's `sha2`.
#![tactic(auto)]

mod comparison;
mod keys;
mod nonce;
mod sign;
mod verification;

pub use keys::public_key;
pub use p256_multiples::BaseTable;
pub use sign::sign_checked;
pub use verification::verify;

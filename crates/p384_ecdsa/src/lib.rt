//! ECDSA over P-384: signatures by RFC 6979 and their verification by FIPS 186-5, with SHA-384.
//! Stands on `p384_multiples`, `p384_curve`, `p384_field`, `p384_order`, `wide_words`, `hmac_wide` and the kit's `sha2`.
#![tactic(auto)]

mod comparison;
mod keys;
mod nonce;
mod sign;
mod verification;

pub use keys::public_key;
pub use p384_multiples::BaseTable;
pub use sign::sign_checked;
pub use verification::verify;

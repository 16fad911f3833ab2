//! ECDSA over P-521: signatures by RFC 6979 and their verification by FIPS 186-5, with SHA-512.
//! Stands on `p521_multiples`, `p521_curve`, `p521_field`, `p521_order`, `wide_words`, `hmac_wide` and the kit's `sha2`.
#![tactic(auto)]

mod comparison;
mod keys;
mod nonce;
mod sign;
mod verification;

pub use keys::public_key;
pub use p521_multiples::BaseTable;
pub use sign::sign_checked;
pub use verification::verify;

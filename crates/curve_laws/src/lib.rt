//! The complete formula by which p256_curve, p384_curve and p521_curve add points, beside the rules of SEC 1,
//! section 2.2.1: definitions and laws alone.
#![tactic(auto)]

pub mod p256;
pub mod p384;
pub mod p521;

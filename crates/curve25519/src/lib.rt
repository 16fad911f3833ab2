//! The curve edwards25519 of RFC 8032, section 5.1: points in extended homogeneous coordinates,
//! their addition, encoding and decoding.
//! Stands on `field25519` and `words64`.
#![tactic(auto)]

mod constants;
mod decoding;
mod point;

pub use constants::constants_hold;
pub use decoding::decode;
pub use point::{Addend, Point};

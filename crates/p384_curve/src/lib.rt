//! The curve P-384: points in homogeneous coordinates, their complete addition, encoding
//! and decoding.
//! Stands on `p384_field` and `wide_words`.
#![tactic(auto)]

mod constants;
mod decoding;
mod point;

pub use constants::constants_hold;
pub use decoding::{decode, encode};
pub use point::Point;

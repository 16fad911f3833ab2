//! Lists that are searched: lists of numbers that rise, each of which stands once and is found by halving. What holds of
//! the first element of a number, or that passes a test, is in specs/ and proofs/ alone.
//! Stands on std alone.
#![tactic(auto)]

mod rising;
#[cfg(test)]
mod tests;

pub use crate::rising::{has, put_in, take_out};

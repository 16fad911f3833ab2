//! Lists that contracts see as plain lists: newtypes over `Vec`, made from one and given back as one,
//! without taking memory. A field of such a type reads in clauses as the list of its elements.
//! Stands on std alone.
#![tactic(auto)]

mod list;
#[cfg(test)]
mod tests;

pub use crate::list::{Bytes, PlainList};

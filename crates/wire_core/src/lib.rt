//! Reads and writes the data types of RFC 4251, section 5.
//!
//! A cursor takes fields from the front of bytes, and `put_` functions append them.
#![tactic(auto)]

mod cursor;
mod laws;
mod put;
mod short;

pub use cursor::Cursor;
pub use laws::{what_is_taken_stood_in_front, what_was_put_is_taken};
pub use put::{put_string, put_u8, put_u32, put_u64};
pub use short::Short;

#[cfg(test)]
mod tests;

//! A removed key is gone: two runs that differ in private keys alone lead to one state, where the
//! keys that differ are held no more and nothing waits.
#![tactic(auto)]

mod laws;
mod rows;

pub use laws::a_removed_key_is_gone;
pub use rows::{nothing_is_left_of_these_keys, these_keys_are_there};

//! Frames of messages at the front of a byte stream: draft-miller-ssh-agent, "Protocol Messages".
//! Stands on wire_text, which has the definitions and the laws of streams, and secret_buf.
#![tactic(auto)]

mod cutting;
mod fields;
mod laws;
mod outcome;
mod put;
mod scan;
#[cfg(test)]
mod tests;

pub use cutting::{after_front, first, front_body};
pub use fields::{push_string, push_u32};
pub use laws::{a_put_frame_is_found_whole, looks_in_turn_split_the_stream};
pub use outcome::{Front, Look};
pub use put::put_frame;
pub use scan::{LONGEST_BODY, look};

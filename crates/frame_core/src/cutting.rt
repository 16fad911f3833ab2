//! The frame at the front of a stream, cut into its body and what follows it.

ghost use Rattle.std.specs.Prelude.{◌≡◌, ◌+◌, ◌≤◌, length};
ghost use Rattle.wire_text.specs.Frames.{front, front_body, after_front};
ghost use Rattle.frame_core.specs.Looks.{front_at, IsCut};

use crate::outcome::{Front, Look};
use crate::scan::look;

/// Finds the frame with a body of 1 to `max` bytes at the front of `bytes`.
///
/// It answers as `look` does, with the bytes in place of their number. Copies nothing, takes no memory.
#[tactic(auto, using(wire_text::proofs::FrontLemmas::whole_within))]
pub fn first(bytes: &[u8], max: u32) -> Front<'_>
    ensures exact { front_at result ≡ front max bytes.now }
    ensures cut { IsCut result bytes.now }
{
    match look(bytes, max) {
        Look::Whole { body } => Front::Whole {
            body: front_body(bytes, body),
            rest: after_front(bytes, body),
        },
        Look::Bad { announced } => Front::Bad { announced },
        Look::More => Front::More,
    }
}

/// The body of a whole frame in front, whose length a look gave.
pub fn front_body(bytes: &[u8], body_len: u32) -> &[u8]
    requires { 4 + body_len ≤ length bytes.now }
    ensures { result.now ≡ front_body body_len bytes.now }
{
    &bytes[4..4 + body_len as usize]
}

/// The bytes that follow a whole frame in front, whose length a look gave.
pub fn after_front(bytes: &[u8], body_len: u32) -> &[u8]
    requires { 4 + body_len ≤ length bytes.now }
    ensures { result.now ≡ after_front body_len bytes.now }
{
    &bytes[4 + body_len as usize..]
}

//! The look at the front of a stream.

ghost use Rattle.std.specs.Prelude.{◌≡◌, ◌↔◌};
ghost use Rattle.wire_text.specs.Wire.{announced_len};
ghost use Rattle.wire_text.specs.Frames.{front, StartsWithFrame, StartsBadly, IsUnfinished};
ghost use Rattle.frame_core.specs.Looks.{front_of};

use crate::outcome::Look;

/// The longest body of a message to an agent, of its reply and of a message of a child process, in bytes (ours).
pub const LONGEST_BODY: u32 = 262_144;

/// Looks for a frame with a body of 1 to `max` bytes at the front of `bytes`.
///
/// A bad length is answered from its four bytes, before any byte of the body is there. The bound is
/// the caller's: the protocol has none but 2^32 - 1. Takes no memory.
pub fn look(bytes: &[u8], max: u32) -> Look
    ensures exact { front_of result ≡ front max bytes.now }
    ensures whole { (result ≡ Look.Whole (announced_len bytes.now))
        ↔ StartsWithFrame max bytes.now }
    ensures bad { (result ≡ Look.Bad (announced_len bytes.now)) ↔ StartsBadly max bytes.now }
    ensures more { (result ≡ Look.More) ↔ IsUnfinished max bytes.now }
{
    let Some((header, rest)) = bytes.split_first_chunk::<4>() else {
        return Look::More;
    };
    let announced = u32::from_be_bytes(*header);
    if announced == 0 || announced > max {
        Look::Bad { announced }
    } else if rest.len() < announced as usize {
        Look::More
    } else {
        Look::Whole { body: announced }
    }
}

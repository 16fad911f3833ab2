//! The cues of a scripted world: what happens outside at a turn.

use crate::Door;
use plain_lists::Bytes;

/// What happens outside at one turn of a `ScriptWorld`. A port is the number that `accept` gives it:
/// what happens at a number that isn't accepted yet waits for it, and at one that is closed is lost.
///
/// Prints nothing, since it carries what clients send, and one-time tokens.
#[derive(Drop)]
pub enum Cue {
    /// Somebody connects.
    Connect(Door),
    /// The peer of a port sends bytes.
    Send { port: u64, bytes: Bytes },
    /// The peer of a port sends no more.
    Shut { port: u64 },
    /// From the first of these on a port takes only as many bytes as they add up to.
    Room { port: u64, count: u32 },
    /// Both clocks are set, in whole seconds. A monotonic second lower than the last one is that one.
    Clock { mono: u64, wall: u64 },
    /// The one-time token of a start, in order. Without one it is sixteen zero bytes.
    Ticket([u8; 16]),
}

//! What a script lets happen outside, at one turn, to the pairs that it plays.

use pair_ports::Side;
use plain_lists::Bytes;

/// What happens outside at one turn of a `PairScript`. A pair is the number that `accept` gives it: what happens at a
/// number that isn't accepted yet waits for it, and at one that is closed is lost.
///
/// Prints nothing, since it carries what clients send.
#[derive(Drop)]
pub enum PairCue {
    /// A client connects.
    Connect,
    /// The peer at a side sends bytes.
    Send { pair: u64, side: Side, bytes: Bytes },
    /// The peer at a side sends no more.
    Shut { pair: u64, side: Side },
    /// From the first of these on a side takes only as many bytes as they add up to. While it takes none, it takes no
    /// connection either.
    Room { pair: u64, side: Side, count: u32 },
}

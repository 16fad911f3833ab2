//! A request for a signature that was put to the helper, with the line of its record.

use plain_lists::Bytes;

/// A request for a signature that was put to the helper.
#[derive(Debug, PartialEq, Eq, Drop)]
pub struct Put {
    /// The line of the record at whose event, or in whose settling, it was put, counted from 1.
    pub line: u64,
    /// The number of the ask.
    pub ask: u64,
    /// The port of the client that asked.
    pub port: u64,
    /// The blob of the key.
    pub blob: Bytes,
}

//! What waits for consent, and what the user decides.

use plain_lists::Bytes;

/// What is to be signed.
#[derive(Debug, Drop, PartialEq, Eq)]
pub struct Held {
    /// The client that waits.
    pub asker: u64,
    /// The addition of the key.
    pub addition: u64,
    pub message: Bytes,
    pub flags: u32,
}

/// What the user decided so far.
#[derive(Debug, Drop, PartialEq, Eq)]
pub enum Verdict {
    /// Nothing.
    NotYet,
    /// The key may be used. The confirmation is over.
    Granted(Held),
    /// It may not, or the child process failed. The confirmation is over.
    Denied(Held),
}

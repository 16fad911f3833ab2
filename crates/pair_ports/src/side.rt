//! Which end of a pair is meant: the client, or the agent behind the filter.

/// A side of a pair of connections.
#[derive(Clone, Copy, Debug, PartialEq, Eq)]
pub enum Side {
    /// Whoever asks.
    Client,
    /// The agent behind the filter.
    Upstream,
}

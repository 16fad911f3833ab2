//! A destination constraint and its two hops, by OpenSSH's PROTOCOL.agent.

use crate::key_spec::KeySpec;
use plain_lists::{Bytes, PlainList};

/// A host on the way of a signature request, and who may be logged in to there.
#[derive(Debug, Drop)]
pub struct Hop {
    /// A pattern for the user. Empty where any user may be.
    pub user: Bytes,
    /// The name of the host. Empty where the hop is the host of the agent itself.
    pub host: Bytes,
    /// The keys by which the host is known.
    pub keys: PlainList<KeySpec>,
}

/// A destination constraint: the key may be used by a request from one host to another.
#[derive(Debug, Drop)]
pub struct Constraint {
    /// The hop that is left.
    pub from: Hop,
    /// The hop that is entered.
    pub to: Hop,
}

//! A host key, or a CA's for host keys, as a hop of OpenSSH's PROTOCOL.agent names it.

use plain_lists::Bytes;

/// A host key, or a certificate authority for host keys.
#[derive(Debug, Drop)]
pub struct KeySpec {
    /// The blob of the public key.
    pub blob: Bytes,
    /// Whether the key is an authority, whose host certificates count in its place.
    pub authority: bool,
}

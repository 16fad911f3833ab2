//! One binding of a connection: the host's key, the session, and whether it is for forwarding.

use plain_lists::Bytes;

/// A host that a connection was bound to.
#[derive(Drop)]
pub struct Binding {
    /// The key that signed the session identifier.
    pub host_key: Bytes,
    /// The session identifier of the connection to that host.
    pub session: Bytes,
    /// Whether the agent is to be forwarded to that host. Otherwise it is to log in there.
    pub forwarding: bool,
}

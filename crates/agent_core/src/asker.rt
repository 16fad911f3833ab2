//! Who makes a request: the port, the hosts that its connection is bound to, and the time.

use dest_rule::Chain;

/// Who asks, and when.
#[derive(Clone, Copy)]
pub struct Asker<'a> {
    pub port: u64,
    /// The hosts that its connection was bound to.
    pub chain: &'a Chain,
    /// Seconds since 1970.
    pub wall: u64,
}

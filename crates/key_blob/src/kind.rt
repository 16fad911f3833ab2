//! The kinds of keys that are known, certificates or not, and one that stands in for tests.

/// The types of keys, apart from whether a certificate carries the key.
#[derive(Clone, Copy, Debug, PartialEq, Eq)]
pub enum KeyKind {
    Ed25519,
    Rsa,
    Nistp256,
    Nistp384,
    Nistp521,
    /// `keyed-sha256@example.com`, for tests: a tag and a secret of 32 bytes each.
    StandIn,
}

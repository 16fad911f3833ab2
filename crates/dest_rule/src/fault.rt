//! Why a binding isn't taken, and what is done with one whose signature is right.

/// Why a binding isn't taken: the first of these, the session's length before all others.
#[derive(Clone, Copy, Debug, PartialEq, Eq)]
pub enum ChainFault {
    /// The newest binding was made to log in, so nothing follows it.
    AuthBound,
    /// The session is bound already, to another host key.
    OtherKey,
    /// The chain has 16 bindings, or its host keys would have more than 65536 bytes in all, or their
    /// certificates more than 1024 bytes of principals.
    ChainFull,
    /// The session identifier is empty or has more than 128 bytes.
    SessionLength,
}

/// What is to be done with a binding whose signature is right.
#[derive(Clone, Copy, Debug, PartialEq, Eq)]
pub enum Next {
    /// Nothing: it isn't taken.
    Refuse(ChainFault),
    /// Nothing: the session is bound to this host key already.
    Same,
    /// It is to be added.
    New,
}

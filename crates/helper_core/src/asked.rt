//! What a request that is handed on asks for: a signature, or whether one is right.

/// What a request that is handed on asks for, and under which number.
#[derive(Clone, Copy, Debug, PartialEq, Eq)]
pub enum Asked {
    /// A signature.
    Signature { ask: u64 },
    /// Whether a signature is right.
    Verdict { ask: u64 },
}

//! An ask that was put to the helper: a signature, or the verification of one.

use plain_lists::Bytes;

/// What an ask is for.
#[derive(Clone, Copy, Debug, PartialEq, Eq)]
pub enum AskKind {
    /// A signature.
    Signing,
    /// The verification of a signature.
    Verifying,
}

/// An ask that was put to the helper, as contracts see it.
#[derive(Debug, Drop, PartialEq, Eq)]
pub struct Ask {
    pub number: u64,
    /// Who asked: a number of the caller's own, which comes back with the answer.
    pub asker: u64,
    pub kind: AskKind,
    /// The blob of the key that is to sign, or whose signature is to be verified.
    pub blob: Bytes,
    /// The second at which it was put, of the caller's monotonic clock.
    pub put_at: u64,
    /// How many bytes the body that asks has: its number, kind and fields, without the frame's length.
    pub size: usize,
}

//! What is told of a signing request.

use plain_lists::Bytes;

/// What a client asked for.
#[derive(Debug, Drop)]
pub enum Asked {
    /// No request is under way.
    Nothing,
    /// A signature of `message` by the key of this blob.
    Signing { blob: Bytes, message: Bytes },
    /// That the key of this blob is held, under this comment.
    Adding { blob: Bytes, comment: Bytes },
    /// Something else.
    Other,
}

/// How far a request went.
#[derive(Clone, Copy, Debug, PartialEq, Eq)]
pub struct Course {
    /// The second at which it was read, by the wall clock.
    pub since: u64,
    /// Whether the user was asked.
    pub raised: bool,
    /// Where it was put to the helper: how many helpers were lost by then.
    pub put: Option<u64>,
}

/// What came of a signing request.
#[derive(Clone, Copy, Debug, PartialEq, Eq)]
pub enum Fate {
    /// The client took a signature.
    Signed,
    /// The client took a refusal, and the request was never put to the helper.
    Refused,
    /// The client took a refusal behind a request to the helper, and none was lost since.
    HelperRefused,
    /// The client took a refusal behind a request to the helper, and one was lost since.
    HelperLost,
    /// The client's port was closed before it had taken an answer.
    Left,
    /// Nothing yet.
    Open,
}

/// A signing request that was read, and its fate.
#[derive(Debug, Drop)]
pub struct Told {
    /// The second of its fate, or at which it was read where it has none; by the wall clock.
    pub wall: u64,
    /// The client's port.
    pub port: u64,
    /// The blob of the key.
    pub blob: Bytes,
    /// The comment under which the key was added last, where that is known.
    pub comment: Option<Bytes>,
    /// What was to be signed.
    pub message: Bytes,
    pub course: Course,
    pub fate: Fate,
}

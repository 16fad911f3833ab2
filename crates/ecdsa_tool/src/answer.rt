//! What the tool answers to a line: bytes, a verdict, or that it refuses the line.

/// The answer to a line.
#[derive(Drop)]
pub(crate) enum Answer {
    /// A public key or a signature, in hexadecimal.
    Bytes(String),
    Verdict(bool),
    Refused,
    NotALine,
}

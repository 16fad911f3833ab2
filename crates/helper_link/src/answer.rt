//! What the helper answers, to whom, and what a piece of its stream told in all.

use crate::fault::LinkFault;
use plain_lists::{Bytes, PlainList};

/// What the helper answers to an ask.
#[derive(Debug, Drop, PartialEq, Eq)]
pub enum Answer {
    /// The signature.
    Signed(Bytes),
    /// No signature is given.
    Refused,
    /// The signature that was to be verified is right.
    True,
    /// It isn't.
    False,
}

/// An ask that was answered. It is unanswered no more.
#[derive(Debug, Drop, PartialEq, Eq)]
pub struct Settled {
    pub ask: u64,
    pub asker: u64,
    pub answer: Answer,
}

/// What a piece of the helper's stream told.
#[derive(Debug, Drop)]
pub struct Told {
    /// The asks that were answered, in the order of the answers.
    pub settled: PlainList<Settled>,
    /// The fault of the first faulty frame, behind which nothing is read. The link is to be lost.
    pub fault: Option<LinkFault>,
}

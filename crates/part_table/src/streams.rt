//! Long streams of a helper, in pieces.

use crate::link::may_ask;
use helper_link::{Answer, Link, LinkState, Settled, Told};
use secret_buf::SecretBytes;
use std::alloc::Global;

/// A link to a helper at port 3.
fn linked(alloc: Global) -> Link {
    let mut link = Link::new(alloc);
    link.begin(1);
    if link.state() == (LinkState::Starting { job: 1 }) {
        link.linked(3);
    }
    link
}

fn told(link: &mut Link, piece: &[u8]) -> Option<Told> {
    match link.state() {
        LinkState::Linked { .. } => link.told(piece).ok(),
        _ => None,
    }
}

/// How many of 256 asks for verifications are answered, the last first, by a stream in pieces of this size, and how many
/// answers there are.
pub(crate) fn verified(alloc: Global, size: usize) -> Option<String> {
    let stream = verifications(alloc)?;
    let mut link = linked(alloc);
    for asker in 1000..1256 {
        verify(&mut link, asker)?;
    }
    let count = told_verified(&mut link, &stream, size)?;
    said_count(alloc, &count)
}

/// Answers: how many came in their turn, and how many in all.
#[derive(Drop)]
struct Count {
    right: u64,
    all: u64,
}

fn said_count(alloc: Global, count: &Count) -> Option<String> {
    format!(in alloc; "{} of {}", count.right, count.all).ok()
}

fn told_verified(link: &mut Link, stream: &[u8], size: usize) -> Option<Count> {
    if size == 0 {
        return None;
    }
    let mut count = Count { right: 0, all: 0 };
    for piece in stream.chunks(size) {
        let told = told(link, piece)?;
        count_verified(told.settled.as_slice(), &mut count);
    }
    Some(count)
}

/// TRUE to the asks 256 to 1.
fn verifications(alloc: Global) -> Option<Vec<u8>> {
    let mut stream = Vec::new(alloc);
    for ask in 0..256_u64 {
        stream.extend_from_slice(&[0, 0, 0, 9, 103]).ok()?;
        stream.extend_from_slice(&(256 - ask).to_be_bytes()).ok()?;
    }
    Some(stream)
}

fn verify(link: &mut Link, asker: u64) -> Option<u64> {
    if !may_ask(link, 0) {
        return None;
    }
    link.ask_verify(asker, &[7], &[8, 9], &[10], 0).ok()
}

fn count_verified(settled: &[Settled], count: &mut Count) {
    for one in settled {
        let ask = 256_u64.saturating_sub(count.right);
        if one.ask == ask && one.asker == ask.saturating_add(999) && one.answer == Answer::True {
            count.right = count.right.saturating_add(1);
        }
        count.all = count.all.saturating_add(1);
    }
}

/// How many of 1000 asks for signatures are answered in order by a stream in pieces of this size, where as many as may be
/// are unanswered before each, and how many answers there are.
pub(crate) fn signed(alloc: Global, size: usize) -> Option<String> {
    let stream = signatures(alloc)?;
    let private = SecretBytes::from_slice(alloc, &[1, 2]).ok()?;
    let mut link = linked(alloc);
    let count = told_signed(&mut link, &private, &stream, size)?;
    said_count(alloc, &count)
}

fn told_signed(
    link: &mut Link,
    private: &SecretBytes,
    stream: &[u8],
    size: usize,
) -> Option<Count> {
    if size == 0 {
        return None;
    }
    let mut count = Count { right: 0, all: 0 };
    for piece in stream.chunks(size) {
        fill(link, private);
        let told = told(link, piece)?;
        count_signed(told.settled.as_slice(), &mut count);
    }
    Some(count)
}

/// SIGNED to the asks 1 to 1000, with signatures that end with the ask's number.
fn signatures(alloc: Global) -> Option<Vec<u8>> {
    let mut stream = Vec::new(alloc);
    for ask in 1..1001_u64 {
        put_signed(&mut stream, ask)?;
    }
    Some(stream)
}

fn put_signed(stream: &mut Vec<u8>, ask: u64) -> Option<()> {
    stream.extend_from_slice(&[0, 0, 0, 33, 101]).ok()?;
    stream.extend_from_slice(&ask.to_be_bytes()).ok()?;
    stream.extend_from_slice(&[0, 0, 0, 20]).ok()?;
    stream.extend_from_slice(&[5; 12]).ok()?;
    stream.extend_from_slice(&ask.to_be_bytes()).ok()
}

/// Asks for signatures until no more may be unanswered.
fn fill(link: &mut Link, private: &SecretBytes) {
    for _ in 0..256 {
        if sign(link, private).is_none() {
            return;
        }
    }
}

fn sign(link: &mut Link, private: &SecretBytes) -> Option<u64> {
    if private.len() > 2 || !may_ask(link, 0) {
        return None;
    }
    link.ask_sign(9, private, &[3], &[4, 5, 6], 2, 0).ok()
}

fn count_signed(settled: &[Settled], count: &mut Count) {
    for one in settled {
        let ask = count.right.saturating_add(1);
        if one.ask == ask && one.asker == 9 && is_signed(&one.answer, ask) {
            count.right = ask;
        }
        count.all = count.all.saturating_add(1);
    }
}

fn is_signed(answer: &Answer, ask: u64) -> bool {
    match answer {
        Answer::Signed(signature) => signature.as_slice().strip_prefix(&[5; 12])
            == Some(&ask.to_be_bytes()),
        _ => false,
    }
}

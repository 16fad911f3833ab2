//! Runs of the filter. What owns files and pairs has no exit: at each their drops would be proved once more.
use crate::fixtures::LISTED;
use filter_top::{FilterStatus, Linked, PairEntry, Side, filter_main};
use pair_script::{PairCue, PairScript};
use plain_lists::Bytes;
use std::alloc::{AllocError, Global};
use std::process::Abort;
use std::sync::Wait;
use std::test::*;
use world_ports::{MapFiles, Wrote};

/// The peer at a side sends what this is in hexadecimal.
pub fn sends(alloc: Global, pair: u64, side: Side, text: &str) -> Result<PairCue, Fail> {
    Ok(PairCue::Send {
        pair,
        side,
        bytes: Bytes::from_vec(hex::decode(alloc, text)?),
    })
}

fn texts(alloc: Global, words: &[&str]) -> Result<Vec<String>, AllocError> {
    let mut texts = Vec::new(alloc);
    for word in words {
        texts.push(String::from_str(alloc, word)?)?;
    }
    Ok(texts)
}

fn files_of(alloc: Global, text: &str) -> Result<MapFiles, AllocError> {
    let held = vec![in alloc;
        (
            String::from_str(alloc, "list")?,
            Vec::from_slice(alloc, text.as_bytes())?
        ),
    ]?;
    Ok(MapFiles::new(held, Vec::new(alloc)))
}

fn name_of(side: Side) -> &'static str {
    match side {
        Side::Client => "client",
        Side::Upstream => "upstream",
    }
}

// What one call did outside, as a line, or nothing: a connection to the agent behind that was made or given back, bytes
// that a side took, and a pair that was closed.
fn deed_of(alloc: Global, entry: &PairEntry) -> Result<String, AllocError> {
    match entry {
        PairEntry::Write {
            pair,
            side,
            offered,
            answer: Ok(Wrote::Took(count)),
        } => {
            let bytes = offered.as_slice();
            let taken = &bytes[..bytes.len().min(*count as usize)];
            let text = hex::encode(alloc, taken)?;
            format!(in alloc; "{} {} {}\n", *pair, name_of(*side), text.as_str())
        }
        PairEntry::Connect {
            pair,
            answer: Ok(Linked::Made),
        } => format!(in alloc; "connect {}\n", *pair),
        PairEntry::Disconnect { pair, .. } => format!(in alloc; "part {}\n", *pair),
        PairEntry::Close { pair, .. } => format!(in alloc; "close {}\n", *pair),
        _ => Ok(String::new(alloc)),
    }
}

fn deeds_of(alloc: Global, journal: &[PairEntry]) -> Result<String, AllocError> {
    let mut deeds = String::new(alloc);
    for entry in journal {
        let deed = deed_of(alloc, entry)?;
        deeds.push_str(deed.as_str())?;
    }
    Ok(deeds)
}

/// The words of a filter without purposes.
pub const PLAIN: &[&str] = &["list", "agent.sock", "filter.sock"];

/// What the filter does by its words over pairs that play these turns, where the list has the first key alone. The call of
/// this number fails, none where it is 0. A deed is a line: `PAIR SIDE BYTES` for bytes that a
/// side took, `connect PAIR`, `part PAIR` or `close PAIR`.
#[derive(Clone, Copy)]
pub struct Run<'a> {
    pub words: &'a [&'a str],
    pub failing: u64,
    pub status: FilterStatus,
    pub deeds: &'a str,
    pub label: &'a str,
}

/// Plays the turns.
pub fn plays<R: Abort + Wait>(rt: &R, alloc: Global, turns: Vec<Vec<PairCue>>, run: &Run<'_>) {
    let words = texts(alloc, run.words).expect(rt, "words");
    let failing = Vec::from_slice(alloc, &[run.failing]).expect(rt, "the failing call");
    let mut files = files_of(alloc, LISTED).expect(rt, "files");
    let mut pairs = PairScript::new(alloc, turns, failing);
    let status = filter_main(rt, alloc, &words, &mut files, &mut pairs);
    let label = run.label;
    assert_eq!(rt; status, run.status, "{label}");
    does(rt, alloc, pairs.journal(), run);
}

fn does(rt: &impl Abort, alloc: Global, journal: &[PairEntry], run: &Run<'_>) {
    let deeds = deeds_of(alloc, journal).expect(rt, "deeds");
    let label = run.label;
    assert_eq!(rt; deeds.as_str(), run.deeds, "{label}");
}

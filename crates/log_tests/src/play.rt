//! Logs of records in memory. What owns the input and the output has no exit: at each their drops would be proved once
//! more.
use crate::fixtures::{AGREED, ASKED, BAD, HELPED, LATER, LEFT, SIGNED, WAITING};
use log_core::{LogStatus, log_main};
use std::alloc::{AllocError, Global};
use std::process::Abort;
use std::test::*;
use world_ports::{SliceSource, VecSink};

/// A log of the record with this name by these words. A read gives at most `piece` bytes, and a write takes at most
/// `cut`. The calls with the numbers `failing_read` and `failing_write` fail; none has the number 0.
#[derive(Clone, Copy)]
pub struct Run<'a> {
    pub record: &'a str,
    pub words: &'a str,
    pub piece: u32,
    pub failing_read: u64,
    pub cut: u32,
    pub failing_write: u64,
}

/// One in which nothing fails.
pub fn whole<'a>(record: &'a str, words: &'a str) -> Run<'a> {
    Run {
        record,
        words,
        piece: u32::MAX,
        failing_read: 0,
        cut: u32::MAX,
        failing_write: 0,
    }
}

// The text of a record, by its front and what stands behind that.
fn text_of(alloc: Global, record: &str) -> Result<Vec<u8>, AllocError> {
    let (lines, front) = match record {
        "signed" => (SIGNED, ""),
        "cut" => (SIGNED, "at 7 18"),
        "helper refused" => (HELPED, "hear 2 00000009660000000000000001\nend 2\n"),
        "helper lost" => (HELPED, "end 2\n"),
        "lost before it is taken" => (
            HELPED,
            "hold 1\nhear 2 00000009660000000000000001\nend 2\nfree 1\n",
        ),
        "both at once" => (HELPED, "hear 2 0000000966000000000000000100000000\n"),
        "waiting" => (WAITING, ""),
        "left" => (LEFT, ""),
        "later" => (LATER, ""),
        "asked" => (ASKED, ""),
        "agreed" => (AGREED, ""),
        "bad" => (BAD, ""),
        "begun" => ("", "join cl"),
        _ => ("", ""),
    };
    let mut text = Vec::from_slice(alloc, lines.as_bytes())?;
    text.extend_from_slice(front.as_bytes())?;
    Ok(text)
}

// Words with single spaces between them.
fn words(rt: &impl Abort, alloc: Global, text: &str) -> Vec<String> {
    let mut words = Vec::new(alloc);
    for word in text.split_whitespace() {
        let word = String::from_str(alloc, word).expect(rt, "a word");
        let pushed = words.push(word).is_ok();
        assert!(rt; pushed, "room for a word");
    }
    words
}

/// What a log ends with and writes.
pub fn logs(
    rt: &impl Abort,
    alloc: Global,
    run: &Run<'_>,
    status: LogStatus,
    written: &str,
    label: &str,
) {
    assert!(rt; run.cut > 0, "{label}");
    assert!(rt; run.piece > 0, "{label}");
    let words = words(rt, alloc, run.words);
    let text = text_of(alloc, run.record).expect(rt, "the record");
    let failing = [run.failing_read].to_vec(alloc).expect(rt, "a number");
    let mut input = SliceSource::new(&text, run.piece, failing);
    let failing = [run.failing_write].to_vec(alloc).expect(rt, "a number");
    let mut output = VecSink::with_cut(alloc, 4096, run.cut, failing).expect(rt, "a sink");
    let ended = log_main(alloc, &words, &mut input, &mut output);
    assert_eq!(rt; ended, status, "{label}");
    assert_eq!(rt; output.written(), written.as_bytes(), "{label}");
}

//! Runs of the tool that adds keys, over files, a connection, an input and outputs in memory.

use crate::given::{Given, Settings};
use add_core::{AddStatus, add_main};
use bstr::ByteSlice;
use std::alloc::{AllocError, Global};
use std::io;
use world_ports::{MapFiles, MemPeer, SliceSource, VecSink};

/// How the tool ends with these words, what it sends, and what stands on its output and its errors.
pub(crate) fn say_run(
    rt: &HostRuntime,
    given: &Given,
    settings: Settings,
    text: &str,
) -> io::Result<()> {
    let words = words_of(rt.alloc(), text, settings.times)?;
    with_words(rt, given, settings, &words)
}

// The words of a text, the last two of them so many times.
fn words_of(alloc: Global, text: &str, times: u64) -> Result<Vec<String>, AllocError> {
    let mut words = Vec::new(alloc);
    for word in text.split(' ') {
        words.push(String::from_str(alloc, word)?)?;
    }
    for _ in 1..times {
        push_again(alloc, &mut words)?;
        push_again(alloc, &mut words)?;
    }
    Ok(words)
}

fn push_again(alloc: Global, words: &mut Vec<String>) -> Result<(), AllocError> {
    if words.len() < 2 {
        return Ok(());
    }
    let word = String::from_str(alloc, words[words.len() - 2].as_str())?;
    words.push(word)?;
    Ok(())
}

fn with_words(
    rt: &HostRuntime,
    given: &Given,
    settings: Settings,
    words: &[String],
) -> io::Result<()> {
    let mut files = files_of(rt.alloc(), given, settings.files)?;
    with_files(rt, given, settings, words, &mut files)
}

// A copy of the files, at which the call with this number fails.
fn files_of(alloc: Global, given: &Given, failing: u64) -> Result<MapFiles, AllocError> {
    let mut files = Vec::new(alloc);
    for file in &given.files {
        push_file(alloc, &mut files, &file.0, &file.1)?;
    }
    Ok(MapFiles::new(files, [failing].to_vec(alloc)?))
}

fn push_file(
    alloc: Global,
    files: &mut Vec<(String, Vec<u8>)>,
    path: &str,
    text: &[u8],
) -> Result<(), AllocError> {
    let path = String::from_str(alloc, path)?;
    files.push((path, Vec::from_slice(alloc, text)?))?;
    Ok(())
}

fn with_files(
    rt: &HostRuntime,
    given: &Given,
    settings: Settings,
    words: &[String],
    files: &mut MapFiles,
) -> io::Result<()> {
    let mut output = sink(rt.alloc(), 200_000, settings.outputs)?;
    let mut errors = sink(rt.alloc(), 1_000, settings.outputs)?;
    with_outputs(rt, given, settings, words, files, &mut output, &mut errors)
}

fn with_outputs(
    rt: &HostRuntime,
    given: &Given,
    settings: Settings,
    words: &[String],
    files: &mut MapFiles,
    output: &mut VecSink,
    errors: &mut VecSink,
) -> io::Result<()> {
    let mut input = source(rt.alloc(), &given.input, 7, settings.inputs)?;
    let mut peer = peer_of(rt.alloc(), given, settings)?;
    let status = add_main(
        rt.alloc(),
        words,
        files,
        &mut peer,
        &mut input,
        output,
        errors,
    );
    let sent = match &peer {
        Some(peer) => peer.written(),
        None => b"",
    };
    say_end(rt, status, sent, output.written(), errors.written())
}

fn say_end(
    rt: &HostRuntime,
    status: AddStatus,
    sent: &[u8],
    output: &[u8],
    errors: &[u8],
) -> io::Result<()> {
    let (count, line) = repeated(output);
    println!(rt;
        "{status:?} sent '{}' output {} x '{}' errors '{}'",
        sent.escape_bytes(),
        count,
        line.escape_bytes(),
        errors.escape_bytes()
    )
}

// How often the first line stands in a text of nothing else, or a text once.
fn repeated(text: &[u8]) -> (usize, &[u8]) {
    let mut lines = text.split_inclusive(|byte| *byte == b'\n');
    let Some(first) = lines.next() else {
        return (0, text);
    };
    let mut count: usize = 1;
    for line in lines {
        if line != first {
            return (1, text);
        }
        count = count.saturating_add(1);
    }
    (count, first)
}

// What the agent says, and room for what is said to it, where there is one.
fn peer_of(
    alloc: Global,
    given: &Given,
    settings: Settings,
) -> Result<Option<MemPeer<'_>>, AllocError> {
    if settings.agents == 0 {
        return Ok(None);
    }
    let replies = source(alloc, &given.replies, settings.cut, settings.reads)?;
    let requests = sink(alloc, 300_000, settings.writes)?;
    Ok(Some(MemPeer::new(replies, requests)))
}

// A sink with so much room, at which the call with this number fails.
fn sink(alloc: Global, room: u32, failing: u64) -> Result<VecSink, AllocError> {
    VecSink::new(alloc, room, [failing].to_vec(alloc)?)
}

// A source that gives at most `cut` bytes a call, of which that with this number fails.
fn source(
    alloc: Global,
    bytes: &[u8],
    cut: u32,
    failing: u64,
) -> Result<SliceSource<'_>, AllocError> {
    Ok(SliceSource::new(bytes, cut.max(1), [failing].to_vec(alloc)?))
}

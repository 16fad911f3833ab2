//! Runs of the relay that asks the user, for which no run of the program that asks is left.

use crate::stage::{Stage, words_of};
use bstr::ByteSlice;
use relay_core::{RelayStatus, relay_main};
use std::alloc::{AllocError, Global};
use std::io;
use world_ports::{ListSpawner, MemPeer, Run, SliceSource, VecSink};

/// How the relay ends with these words where the agent says what the input holds, what it sends, and what it runs.
pub(crate) fn say_run(rt: &HostRuntime, stage: &Stage, line: &str) -> io::Result<()> {
    let words = words_of(rt.alloc(), line)?;
    let mut peer = peer_of(rt.alloc(), &stage.input)?;
    let mut spawner = ListSpawner::new(rt.alloc(), Vec::new(rt.alloc()), Vec::new(rt.alloc()));
    let status = relay_main(rt.alloc(), &words, &mut spawner, &mut peer);
    say_end(rt, status, peer.written(), spawner.made())
}

fn peer_of(alloc: Global, bytes: &[u8]) -> Result<MemPeer<'_>, AllocError> {
    let sink = VecSink::new(alloc, 4096, Vec::new(alloc))?;
    let source = SliceSource::new(bytes, 4096, Vec::new(alloc));
    Ok(MemPeer::new(source, sink))
}

fn say_end(rt: &HostRuntime, status: RelayStatus, sent: &[u8], made: &[Run]) -> io::Result<()> {
    let ran = ran(rt.alloc(), made)?;
    println!(rt;
        "{status:?} sent '{}' runs '{}'",
        sent.escape_bytes(),
        ran.as_slice().escape_bytes()
    )
}

// Each program that was run, and its word.
fn ran(alloc: Global, made: &[Run]) -> Result<Vec<u8>, AllocError> {
    let mut said = Vec::new(alloc);
    for run in made {
        said.extend_from_slice(run.program.as_slice())?;
        said.extend_from_slice(b" ")?;
        said.extend_from_slice(run.word.as_slice())?;
        said.extend_from_slice(b"\n")?;
    }
    Ok(said)
}

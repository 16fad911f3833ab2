//! The helper that signs and verifies with Ed25519 keys, ECDSA keys over P-256, P-384 and P-521, and RSA keys:
//! `mortarleek_signer SOCKET JOB TICKET [HELPER]` answers the agent's requests, and hands those with keys of other types
//! on to the program HELPER. A SOCKET of `-` is its standard input, and a TICKET of `-` stands in the environment.
//! `signer_main` of signer_keys is the program; here are its words, its connection, the helper behind, and what it says on
//! standard error.
#![tactic(auto)]

use child_peer::NoPeer;
use helper_core::HelperStatus;
use helper_edge::ProgramBehind;
use real_edge::{connect_child, put_ticket};
use signer_keys::{SignerKeys, signer_main};
use std::alloc::{AllocError, Global};
use std::env;
use std::io::{ErrorKind, Result as IoResult};
use std::process::ExitCode;
use std::sync::Wait;

// A word, or none where there are fewer.
fn word(alloc: Global, words: &[String], place: usize) -> Result<Option<String>, AllocError> {
    match words.get(place) {
        Some(word) => Ok(Some(String::from_str(alloc, word.as_str())?)),
        None => Ok(None),
    }
}

// The runtime is handed in twice: only `main`'s own may wait.
fn run<W: Wait>(rt: &HostRuntime, wait: &W) -> IoResult<HelperStatus> {
    let alloc = rt.alloc();
    let mut words: Vec<String> = env::args(rt)?.skip(1).collect(alloc)?;
    put_ticket(rt, words.as_mut_slice())?;
    let keys = SignerKeys::new(alloc);
    let job = word(alloc, &words, 1)?.unwrap_or(String::new(alloc));
    let mut behind = ProgramBehind::new(rt, word(alloc, &words, 3)?, job);
    if let Some(path) = words.first() {
        if let Ok((mut peer, _)) = connect_child(rt, &rt.stdin(), path.as_str()) {
            return Ok(signer_main(wait, alloc, &words, &keys, &mut behind, &mut peer));
        }
    }
    Ok(signer_main(wait, alloc, &words, &keys, &mut behind, &mut NoPeer::new()))
}

// What is told on standard error.
fn trouble(status: HelperStatus) -> Option<&'static str> {
    match status {
        HelperStatus::Done => None,
        HelperStatus::BadFrame => Some("the agent sent no request to a helper"),
        HelperStatus::Usage => Some("usage: mortarleek_signer SOCKET JOB TICKET [HELPER]"),
        HelperStatus::Memory => Some("out of memory"),
        HelperStatus::ReadFault => Some("the agent could not be read from"),
        HelperStatus::WriteFault => Some("the agent could not be reached or written to"),
        HelperStatus::TornEnd => Some("the agent ended within a frame"),
    }
}

fn main(rt: HostRuntime) -> ExitCode {
    let status = match run(&rt, &rt) {
        Ok(status) => status,
        Err(error) if error.kind() == ErrorKind::OutOfMemory => HelperStatus::Memory,
        // Words that can't be read are none of a helper's.
        Err(_) => HelperStatus::Usage,
    };
    if let Some(trouble) = trouble(status) {
        let _ = eprintln!(rt; "mortarleek_signer: {trouble}");
    }
    ExitCode::from(status.code())
}

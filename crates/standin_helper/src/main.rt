//! A helper that signs with stand-in keys, for tests: `standin_helper SOCKET JOB TICKET [DATA]` answers the
//! agent's requests. A SOCKET of `-` is its standard input, and a TICKET of `-` stands in the environment.
//! `helper_main` of standin_core is the program; here are its words, its files, its connection, and what it
//! says on standard error.
#![tactic(auto)]

use child_peer::NoPeer;
use real_edge::{RealFiles, connect_child, is_memory, put_ticket};
use standin_core::{HelperStatus, helper_main};
use std::env;
use std::io::Result as IoResult;
use std::process::ExitCode;
use std::sync::Wait;

// The runtime is handed in twice: only `main`'s own may wait.
fn run<W: Wait>(rt: &HostRuntime, wait: &W) -> IoResult<HelperStatus> {
    let alloc = rt.alloc();
    let mut words: Vec<String> = env::args(rt)?.skip(1).collect(alloc)?;
    put_ticket(rt, words.as_mut_slice())?;
    let mut files = RealFiles::new(rt);
    if let Some(path) = words.first() {
        if let Ok((mut peer, _)) = connect_child(rt, &rt.stdin(), path.as_str()) {
            return Ok(helper_main(wait, alloc, &words, &mut files, &mut peer));
        }
    }
    Ok(helper_main(wait, alloc, &words, &mut files, &mut NoPeer::new()))
}

// What is told on standard error.
fn trouble(status: HelperStatus) -> Option<&'static str> {
    match status {
        HelperStatus::Done => None,
        HelperStatus::BadFrame => Some("the agent sent no request to a helper"),
        HelperStatus::Usage => Some("usage: standin_helper SOCKET JOB TICKET [DATA]"),
        HelperStatus::FileFault => Some("the data file could not be read"),
        HelperStatus::FileTooLong => Some("the data file has more than 1048576 bytes"),
        HelperStatus::BadFile => Some("the data file has a line of another form"),
        HelperStatus::Memory => Some("out of memory"),
        HelperStatus::ReadFault => Some("the agent could not be read from"),
        HelperStatus::WriteFault => Some("the agent could not be reached or written to"),
        HelperStatus::TornEnd => Some("the agent ended within a frame"),
    }
}

fn main(rt: HostRuntime) -> ExitCode {
    let status = match run(&rt, &rt) {
        Ok(status) => status,
        Err(error) if is_memory(&error) => HelperStatus::Memory,
        // Words that can't be read are none of a helper's.
        Err(_) => HelperStatus::Usage,
    };
    if let Some(trouble) = trouble(status) {
        let _ = eprintln!(rt; "standin_helper: {trouble}");
    }
    ExitCode::from(status.code())
}

//! A filter before an SSH agent. `filter_proxy LIST UPSTREAM PATH [PURPOSE ...]` listens at PATH, and lets its clients see
//! and use, of the keys that the agent at UPSTREAM holds, those alone whose public keys stand in the file LIST, and where
//! purposes are named for these alone. `filter_main` of filter_top is the program; here are its words, its file and its
//! sockets, and what it says on standard error.
#![tactic(auto)]

use filter_top::{FilterStatus, filter_main};
use real_edge::{RealFiles, is_memory};
use std::alloc::AllocGlobal;
use std::env;
use std::env::Env;
use std::fs::{File, Files};
use std::io::Error;
use std::net::Net;
use std::process::ExitCode;
use std::sync::Wait;
use std::time::Clock;
use unix_pairs::UnixPairs;

// The status where a call of the system failed.
fn status_of(error: &Error, otherwise: FilterStatus) -> FilterStatus {
    if is_memory(error) {
        FilterStatus::Memory
    } else {
        otherwise
    }
}

// The words behind the program's name. Such as can't be read are no form of the program's.
fn words_of<R: Env + AllocGlobal>(rt: &R) -> Result<Vec<String>, FilterStatus> {
    let mut given = env::args(rt).map_err(|error| status_of(&error, FilterStatus::Usage))?;
    given
        .skip(1)
        .collect(rt.alloc())
        .map_err(|_| FilterStatus::Memory)
}

// Serves over the real outside, and takes away the file of the socket that it bound.
fn serve<R, W: Wait>(rt: &R, wait: &W) -> Result<FilterStatus, FilterStatus>
where
    R: Files<File = File> + Net + Clock + Env + AllocGlobal,
{
    let alloc = rt.alloc();
    let words = words_of(rt)?;
    let mut files = RealFiles::new(rt);
    let mut pairs = UnixPairs::new(rt, alloc).map_err(|error| status_of(
        &error,
        FilterStatus::PollFault,
    ))?;
    let status = filter_main(wait, alloc, &words, &mut files, &mut pairs);
    pairs.remove_file();
    Ok(status)
}

fn main(rt: HostRuntime) -> ExitCode {
    // The runtime is handed in twice: only `main`'s own may wait.
    let status = match serve(&rt, &rt) {
        Ok(status) => status,
        Err(status) => status,
    };
    if status != FilterStatus::Done {
        let _ = eprintln!(rt; "filter_proxy: {status}");
    }
    ExitCode::from(status.code())
}

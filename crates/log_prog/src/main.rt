//! The log of a recorded run. `log_prog [LIFE] [--confirm-limit SECONDS]` runs the record that it reads from standard input
//! again, and writes a line for each request for a signature that was read in it, with what came of it. `log_main` of log_core is the
//! program; here are its words, its input and its output, and what it says on standard error.
#![tactic(auto)]

use log_core::{LogStatus, log_main};
use real_edge::is_memory;
use std::env;
use std::io::Result as IoResult;
use std::process::ExitCode;
use world_ports::{Reading, Sink, Source, Writing};

fn run<I: Source, O: Sink>(rt: &HostRuntime, input: &mut I, output: &mut O) -> IoResult<LogStatus> {
    let alloc = rt.alloc();
    let words: Vec<String> = env::args(rt)?.skip(1).collect(alloc)?;
    Ok(log_main(alloc, &words, input, output))
}

fn main(rt: HostRuntime) -> ExitCode {
    let mut input = Reading::new(rt.stdin());
    let mut output = Writing::new(rt.stdout());
    let status = match run(&rt, &mut input, &mut output) {
        Ok(status) => status,
        Err(error) if is_memory(&error) => LogStatus::Memory,
        // Words that can't be read are no form of the program's.
        Err(_) => LogStatus::Usage,
    };
    if status != LogStatus::Whole {
        let _ = eprintln!(rt; "log_prog: {status}");
    }
    ExitCode::from(status.code())
}

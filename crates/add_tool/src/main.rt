//! `ssh-add`: adds keys to the agent that listens at SSH_AUTH_SOCK, removes and lists them, locks and
//! unlocks it. `add_main` of add_core is the program; here are its words, its files, its connection and
//! its streams, and what it says on standard error behind the line that `add_main` writes.
#![tactic(auto)]

mod named;
mod trouble;

use crate::named::Named;
use crate::trouble::Trouble;
use add_core::{AddFault, AddStatus, add_main};
use real_edge::{RealFiles, connect, is_memory};
use std::env;
use std::io::Result as IoResult;
use std::process::ExitCode;
use world_ports::{Files, Reading, Writing};

fn run<F: Files>(rt: &HostRuntime, files: &mut F) -> IoResult<AddStatus> {
    let alloc = rt.alloc();
    let words: Vec<String> = env::args(rt)?.skip(1).collect(alloc)?;
    let mut peer = match env::var(rt, "SSH_AUTH_SOCK") {
        Ok(path) => connect(rt, path.as_str()).ok(),
        Err(_) => None,
    };
    let mut input = Reading::new(rt.stdin());
    let mut output = Writing::new(rt.stdout());
    let mut errors = Writing::new(rt.stderr());
    Ok(add_main(
        alloc,
        &words,
        files,
        &mut peer,
        &mut input,
        &mut output,
        &mut errors,
    ))
}

fn main(rt: HostRuntime) -> ExitCode {
    let mut files = Named::new(RealFiles::new(&rt));
    let status = match run(&rt, &mut files) {
        Ok(status) => status,
        Err(error) if is_memory(&error) => AddStatus::Memory,
        // Words that can't be read are none of the tool's, and `add_main` had no say.
        Err(_) => AddStatus::Failed(AddFault::Usage),
    };
    let reason = files.files().reason();
    if let Some(trouble) = Trouble::of(status, files.take_last(), reason) {
        let _ = eprintln!(rt; "ssh-add: {trouble}");
    }
    ExitCode::from(status.code())
}

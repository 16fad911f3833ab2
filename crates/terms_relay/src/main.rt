//! `terms_relay [-u COUNT] [-p PURPOSE] ... PATH AGENT` stands between one client and the agent at AGENT: behind
//! the constraints of each key that the client adds it sets the number of uses and the purposes, and passes
//! everything else on as it is. It listens at PATH, tells so by a line on its standard output, and takes one
//! connection, with which PATH is gone. `relay` of terms_core is the relay; here are its words and its sockets,
//! and what it says on standard error.
#![tactic(auto)]

mod one_client;

use crate::one_client::take_one;
use real_edge::{connect, is_memory};
use std::alloc::{AllocGlobal, Global};
use std::env;
use std::env::Env;
use std::fs::{File, Files};
use std::io::{Error, Write};
use std::net::Net;
use std::process::ExitCode;
use std::sync::Wait;
use terms_core::{TermsStatus, read_relay, relay};

// The status where a call of the system failed.
fn status_of(error: &Error, otherwise: TermsStatus) -> TermsStatus {
    if is_memory(error) {
        TermsStatus::Memory
    } else {
        otherwise
    }
}

// The words behind the program's name. Such as can't be read are none of the program's.
fn words_of<R: Env + AllocGlobal>(rt: &R, alloc: Global) -> Result<Vec<String>, TermsStatus> {
    let given = env::args(rt).map_err(|error| status_of(&error, TermsStatus::Usage))?;
    given
        .skip(1)
        .collect(alloc)
        .map_err(|_| TermsStatus::Memory)
}

// Takes one client and stands between it and the agent until it ends.
fn serve<R, W: Wait, O: Write>(rt: &R, wait: &W, told: &mut O) -> Result<TermsStatus, TermsStatus>
where
    R: Files<File = File> + Net + Env + AllocGlobal,
{
    let alloc = rt.alloc();
    let words = words_of(rt, alloc)?;
    let asked = read_relay(alloc, &words)?;
    let mut agent = connect(rt, asked.agent).map_err(|error| status_of(
        &error,
        TermsStatus::WriteFault,
    ))?;
    let mut client = take_one(rt, asked.path, told).map_err(|error| status_of(
        &error,
        TermsStatus::ReadFault,
    ))?;
    Ok(relay(wait, alloc, &asked.terms, &mut client, &mut agent))
}

fn main(rt: HostRuntime) -> ExitCode {
    let mut told = rt.stdout();
    // The runtime is handed in twice: only `main`'s own may wait.
    let status = match serve(&rt, &rt, &mut told) {
        Ok(status) => status,
        Err(status) => status,
    };
    if status != TermsStatus::Done {
        let _ = eprintln!(rt; "terms_relay: {status}");
    }
    ExitCode::from(status.code())
}

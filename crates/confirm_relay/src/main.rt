//! The relay that asks the user: `confirm_relay SOCKET JOB TICKET ASKPASS` runs ASKPASS with the agent's
//! prompt, and tells the agent what the user said. A SOCKET of `-` is its standard input, and a TICKET of
//! `-` stands in the environment, of which ASKPASS is given what a dialog needs; ASKPASS is killed where the
//! agent closes the connection.
//! `relay_main` of relay_core is the program; here are its words, its connection, and what it says on
//! standard error.
#![tactic(auto)]

use child_peer::NoPeer;
use real_edge::{RealSpawner, connect_child, is_memory, put_ticket};
use relay_core::{RelayStatus, relay_main};
use std::env;
use std::io::Result as IoResult;
use std::process::ExitCode;

fn run(rt: &HostRuntime) -> IoResult<RelayStatus> {
    let alloc = rt.alloc();
    let mut words: Vec<String> = env::args(rt)?.skip(1).collect(alloc)?;
    put_ticket(rt, words.as_mut_slice())?;
    if let Some(path) = words.first() {
        if let Ok((mut peer, connection)) = connect_child(rt, &rt.stdin(), path.as_str()) {
            let mut spawner = RealSpawner::asking(rt, connection);
            return Ok(relay_main(alloc, &words, &mut spawner, &mut peer));
        }
    }
    let mut spawner = RealSpawner::new(rt);
    Ok(relay_main(alloc, &words, &mut spawner, &mut NoPeer::new()))
}

fn main(rt: HostRuntime) -> ExitCode {
    let status = match run(&rt) {
        Ok(status) => status,
        Err(error) if is_memory(&error) => RelayStatus::Memory,
        // Words that can't be read are none of a relay's.
        Err(_) => RelayStatus::Usage,
    };
    if status != RelayStatus::Done {
        let _ = eprintln!(rt; "confirm_relay: {status}");
    }
    ExitCode::from(status.code())
}

//! The system's programs as a `Spawner`, those that ask the user among them.

ghost use Rattle.std.specs.Prelude.{◌≡◌, None};

use crate::dialog::give_dialog;
use crate::errors::is_memory;
use crate::ticket::TICKET;
use crate::turns::await_turn;
use crate::watched::run_to_end;
use plain_lists::Bytes;
use std::alloc::{AllocGlobal, Global};
use std::env::Env;
use std::fs::{File, Files};
use std::io;
use std::io::Result as IoResult;
use std::os::fd::AsRawFd;
use std::os::unix::net::UnixStream;
use std::process::{Command, Processes, Stdio};
use world_ports::{Ran, SpawnFault, Spawner};

/// Runs programs of the system, of which nothing is told. Failed runs are counted.
///
/// A program is searched as the system does, has an empty standard input, and shares our standard
/// error and environment, a ticket there excepted. One that asks the user gets of the environment only
/// what a dialog needs, and is started once no other relay of the agent asks; where the peer of the
/// connection shuts its end, it is killed or isn't started, and the run has failed: nobody waits for its
/// answer.
#[derive(Drop)]
pub struct RealSpawner<'a, R> {
    rt: &'a R,
    watched: Option<UnixStream>,
    faults: u64,
}

impl<'a, R> RealSpawner<'a, R> {
    pub fn new(rt: &'a R) -> Self
        ensures { result.faults ≡ 0 }
    {
        RealSpawner {
            rt,
            watched: None,
            faults: 0,
        }
    }

    /// Programs ask the user, for as long as the peer of this connection holds its end open.
    pub fn asking(rt: &'a R, connection: UnixStream) -> Self
        ensures { result.faults ≡ 0 }
    {
        RealSpawner {
            rt,
            watched: Some(connection),
            faults: 0,
        }
    }
}

impl<R: Files<File = File> + Processes + Env + AllocGlobal> Spawner for RealSpawner<'_, R> {
    ghost seen = { λ s. record { runs = None; faults = s.faults } };

    fn run(&mut self, alloc: Global, program: &str, word: &str) -> Result<Ran, SpawnFault> {
        let watched = match &self.watched {
            Some(connection) => Some(connection.as_raw_fd()),
            None => None,
        };
        match run_program(self.rt, alloc, program, word, watched) {
            Ok(ran) => Ok(ran),
            Err(error) if is_memory(&error) => Err(SpawnFault::Memory),
            Err(_) => {
                self.faults = self.faults.saturating_add(1);
                Err(SpawnFault::Failed)
            }
        }
    }
}

fn run_program<R: Files<File = File> + Processes + Env + AllocGlobal>(
    rt: &R,
    alloc: Global,
    program: &str,
    word: &str,
    watched: Option<i32>,
) -> IoResult<Ran> {
    let turn = match watched {
        Some(connection) => await_turn(rt, connection)?,
        None => None,
    };
    let (mut output, theirs) = io::pipe(rt)?;
    let mut command = Command::new(alloc, program)?;
    command.arg(word)?;
    match watched {
        Some(_) => give_dialog(rt, alloc, &mut command, watched)?,
        None => {
            command.env_remove(TICKET)?;
        }
    }
    command.stdin(Stdio::null());
    command.stdout(Stdio::from(theirs));
    let mut child = command.spawn(rt)?;
    // Our copy of the program's end of the pipe is closed, so that its output can end.
    drop(command);
    let (status, heard) = run_to_end(alloc, &mut child, &mut output, watched)?;
    drop(turn);
    Ok(Ran {
        status: status.code().unwrap_or(-1),
        output: Bytes::from_vec(heard),
    })
}

//! An SSH agent. `agent_prog serve` listens on a Unix socket until a signal ends it; `agent_prog replay` reads events
//! from standard input and writes what the agent does to standard output; `agent_prog drill` makes events from a seed,
//! and sums up what came of them. `agent_main` of agent_top is the program; here are its words, its sockets and streams,
//! and what it says on standard error.
#![tactic(auto)]

mod cores;
mod descriptors;
mod loader;
mod outside;
mod patient;

use crate::cores::may_dump;
use crate::descriptors::close_inherited;
use crate::outside::world_of;
use crate::patient::Patient;
use agent_top::{Status, agent_main};
use serve_words::{ServeFault, ServeWords, read_serve};
use std::alloc::{AllocGlobal, Global};
use std::env;
use std::env::Env;
use std::fs::{File, Files};
use std::io::Error;
use std::net::Net;
use std::process::{ExitCode, Processes};
use std::random::RandomSource;
use std::sync::Wait;
use std::time::Clock;
use unix_world::is_memory;
use world_ports::{Reading, ScriptWorld, Sink, Source, Writing};

// The status where a call of the system failed.
fn status_of(error: &Error, otherwise: Status) -> Status {
    if is_memory(error) {
        Status::Memory
    } else {
        otherwise
    }
}

// The words behind the program's name. Such as can't be read are no form of the program's.
fn words_of<R: Env + AllocGlobal>(rt: &R) -> Result<Vec<String>, Status> {
    let mut given = env::args(rt).map_err(|error| status_of(&error, Status::Usage))?;
    given
        .skip(1)
        .collect(rt.alloc())
        .map_err(|_| Status::Memory)
}

// Serves over the real outside, and takes away the file of the socket that it bound.
fn serve<R, W: Wait, I: Source, O: Sink, E: Sink>(
    rt: &R,
    wait: &W,
    words: &[String],
    served: ServeWords,
    input: &mut I,
    output: &mut O,
    errors: &mut E,
) -> Result<Status, Status>
where
    R: Files<File = File> + Net + Processes + RandomSource + Clock + Env + AllocGlobal + Eprint,
{
    let alloc = rt.alloc();
    let mut world = world_of(rt, alloc, served).map_err(|error| status_of(
        &error,
        Status::PollFault,
    ))?;
    let status = agent_main(wait, alloc, words, &mut world, input, output, errors);
    world.remove_file();
    Ok(status)
}

// Runs any other command, or refuses the words: without a socket, a descriptor or a program.
fn run_alone<W: Wait, I: Source, O: Sink, E: Sink>(
    wait: &W,
    alloc: Global,
    words: &[String],
    input: &mut I,
    output: &mut O,
    errors: &mut E,
) -> Status {
    let mut world = ScriptWorld::new(alloc, Vec::new(alloc), Vec::new(alloc));
    agent_main(wait, alloc, words, &mut world, input, output, errors)
}

// The runtime is handed in twice: only `main`'s own may wait.
fn run<W: Wait>(rt: &HostRuntime, wait: &W) -> Result<Status, Status> {
    let alloc = rt.alloc();
    let words = words_of(rt)?;
    let mut input = Reading::new(rt.stdin());
    let mut errors = Writing::new(rt.stderr());
    match read_serve(alloc, &words) {
        Ok(served) => {
            close_inherited(rt, alloc);
            if may_dump() {
                let _ = eprintln!(rt;
                    "mortarleek: a core file could hold private keys: set its limit to 0 (ulimit -c 0)"
                );
            }
            if let Some(name) = loader::named_by(rt) {
                let _ = eprintln!(rt;
                    "mortarleek: {name} was set: what it names runs in the agent, beside its keys"
                );
            }
            let mut output = Writing::new(Patient::new(rt, rt.stdout(), served.or_stop));
            serve(
                rt,
                wait,
                &words,
                served,
                &mut input,
                &mut output,
                &mut errors,
            )
        }
        Err(ServeFault::Memory) => Err(Status::Memory),
        Err(ServeFault::Usage) => {
            let mut output = Writing::new(rt.stdout());
            Ok(run_alone(wait, alloc, &words, &mut input, &mut output, &mut errors))
        }
    }
}

fn main(rt: HostRuntime) -> ExitCode {
    let status = match run(&rt, &rt) {
        Ok(status) => status,
        Err(status) => status,
    };
    if status != Status::Done {
        let _ = eprintln!(rt; "mortarleek: {status}");
    }
    ExitCode::from(status.code())
}

//! Starts child processes.

use crate::connection::Connection;
use crate::doors::BoundFile;
use crate::hello::Hello;
use crate::port::Port;
use crate::programs::{KnownPrograms, Programs, kept_environment};
use crate::sockets::Sockets;
use crate::started::Started;
use mio::Token;
use mio::net::UnixStream;
use rand::TryRng;
use rand::rngs::SysRng;
use std::alloc::{AllocGlobal, Global};
use std::env::Env;
use std::fs::Files;
use std::io;
use std::io::{Error, ErrorKind};
use std::net::Net;
use std::os::fd::OwnedFd;
use std::os::unix::net;
use std::process::Processes;
use std::random::RandomSource;
use std::time::Clock;
use world_ports::Job;

/// The programs that are started as child processes, which files they were, and what they see of the environment.
#[derive(Drop)]
pub struct Starter {
    programs: Programs,
    known: KnownPrograms,
    kept: Vec<(String, String)>,
}

impl Starter {
    pub fn new<R: Files + Env + AllocGlobal>(
        rt: &R,
        alloc: Global,
        programs: Programs,
    ) -> io::Result<Starter> {
        let kept = kept_environment(rt, alloc)?;
        let known = programs.known(rt);
        Ok(Starter {
            programs,
            known,
            kept,
        })
    }
}

// A ticket that nobody can guess.
fn new_ticket<R: RandomSource>(rt: &R) -> io::Result<[u8; 16]> {
    let mut ticket = [0; 16];
    SysRng::new(rt).try_fill_bytes(&mut ticket)?;
    Ok(ticket)
}

/// Starts the child process of a job, and joins its connection, which is there to be accepted.
pub fn begin<R: Files + Net + Processes + RandomSource + Clock + Eprint>(
    rt: &R,
    alloc: Global,
    starter: &mut Starter,
    file: &Option<BoundFile>,
    sockets: &mut Sockets<R::Started>,
    job: Job,
) -> io::Result<[u8; 16]> {
    let may_start = starter
        .programs
        .may_start(rt, alloc, &mut starter.known, job.kind)?;
    if !may_start {
        return Err(Error::from(ErrorKind::PermissionDenied));
    }
    sockets.ports.reserve()?;
    sockets.started.reserve()?;
    let ticket = new_ticket(rt)?;
    let (ours, theirs) = net::UnixStream::pair(rt)?;
    ours.set_nonblocking(true)?;
    let key = sockets.ports.next_key();
    let port = Port::new(
        sockets.epoll.poll.registry(),
        Token(key),
        UnixStream::from_std(ours),
    )?;
    let questions = file.as_ref().map(|file| file.questions.as_str());
    let process = starter.programs.start(
        rt,
        alloc,
        &starter.kept,
        questions,
        job,
        &ticket,
        OwnedFd::from(theirs),
    )?;
    sockets.ports.add(Connection {
        number: None,
        port,
        child: Some(Started::new(process, Hello::new(job.number, &ticket))),
    })?;
    sockets.started.look(rt);
    sockets.started.begin(key)?;
    Ok(ticket)
}

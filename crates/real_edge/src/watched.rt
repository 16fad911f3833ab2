//! Runs a program to its end, and kills it where the connection's peer goes away before that.

use libc::net::{POLLIN, POLLRDHUP, poll};
use libc::types::pollfd;
use std::alloc::Global;
use std::io::{Error, ErrorKind, PipeReader, Read, Result as IoResult};
use std::os::fd::AsRawFd;
use std::process::{Child, ExitStatus, OpenProcess};

// How many bytes a read brings at most.
const ROOM: usize = 4096;

// How often a program that closed its output is asked whether it has ended.
const PAUSE_MILLIS: i32 = 10;

// Waits for as long as it takes.
const NO_BOUND: i32 = -1;

// Stands for no descriptor: the system passes it over.
const NONE: i32 = -1;

// What there is.
#[derive(Clone, Copy, PartialEq, Eq)]
enum Told {
    // The program wrote, or closed its output.
    Output,
    // The peer of the connection shut its end.
    Gone,
    // Neither yet.
    Nothing,
}

// Waits so many milliseconds for the output or for the end of the connection, which goes first.
fn await_either(output: i32, connection: i32, millis: i32) -> IoResult<Told> {
    let mut watched = [
        pollfd {
            fd: connection,
            events: POLLRDHUP,
            revents: 0,
        },
        pollfd {
            fd: output,
            events: POLLIN,
            revents: 0,
        },
    ];
    if poll(&mut watched, millis) < 0 {
        return Err(Error::from(ErrorKind::Other));
    }
    if watched[0].revents != 0 {
        return Ok(Told::Gone);
    }
    if watched[1].revents != 0 {
        return Ok(Told::Output);
    }
    Ok(Told::Nothing)
}

// All that the program writes, where the connection stands until it closes its output.
fn read_output(alloc: Global, output: &mut PipeReader, connection: i32) -> IoResult<Vec<u8>> {
    let mut heard = Vec::new(alloc);
    let mut room = vec![in alloc; 0u8; ROOM]?;
    for _ in 0..u64::MAX {
        match await_either(output.as_raw_fd(), connection, NO_BOUND)? {
            Told::Gone => return Err(Error::from(ErrorKind::ConnectionAborted)),
            Told::Nothing => {}
            Told::Output => {
                let count = output.read(room.as_mut_slice())?;
                if count == 0 {
                    return Ok(heard);
                }
                heard.extend_from_slice(&room.as_slice()[..count])?;
            }
        }
    }
    Err(Error::from(ErrorKind::TimedOut))
}

/// Waits so many milliseconds. Fails where the peer of the connection has shut its end, or does so meanwhile.
pub fn await_peer(connection: i32, millis: i32) -> IoResult<()> {
    match await_either(NONE, connection, millis)? {
        Told::Gone => Err(Error::from(ErrorKind::ConnectionAborted)),
        Told::Output | Told::Nothing => Ok(()),
    }
}

// How the program ends, where the connection stands until then.
fn await_end<P: OpenProcess>(child: &mut Child<P>, connection: i32) -> IoResult<ExitStatus> {
    for _ in 0..u64::MAX {
        if let Some(status) = child.try_wait()? {
            return Ok(status);
        }
        await_peer(connection, PAUSE_MILLIS)?;
    }
    Err(Error::from(ErrorKind::TimedOut))
}

/// How the program ends, and all that it writes. Where the connection of this descriptor, if there is one, is shut at
/// its other end before that, or something fails, the program is killed.
pub fn run_to_end<P: OpenProcess>(
    alloc: Global,
    child: &mut Child<P>,
    output: &mut PipeReader,
    connection: Option<i32>,
) -> IoResult<(ExitStatus, Vec<u8>)> {
    let connection = connection.unwrap_or(NONE);
    match heard_and_ended(alloc, child, output, connection) {
        Ok(ended) => Ok(ended),
        Err(error) => {
            if child.kill().is_ok() {
                let _ = child.wait();
            }
            Err(error)
        }
    }
}

fn heard_and_ended<P: OpenProcess>(
    alloc: Global,
    child: &mut Child<P>,
    output: &mut PipeReader,
    connection: i32,
) -> IoResult<(ExitStatus, Vec<u8>)> {
    let heard = read_output(alloc, output, connection)?;
    let status = await_end(child, connection)?;
    Ok((status, heard))
}

//! A helper process that runs, and the connection over which it is asked and answers.

ghost use Rattle.std.specs.Prelude.{◌≡◌};

use crate::deadline::Deadline;
use child_msg::{FromChild, read_from_child};
use frame_core::{Front, LONGEST_BODY, first};
use secret_buf::ScrubBuf;
use std::alloc::Global;
use std::io::{Error, ErrorKind, Read, Result as IoResult, Write};
use std::net::Net;
use std::os::fd::OwnedFd;
use std::os::unix::net::UnixStream;
use std::process::{Child, Command, OpenProcess, Processes, Stdio};
use std::time::{Clock, Duration};

// The words for a connection that is the standard input, and for a ticket that nobody asks for.
const STANDARD_INPUT: &str = "-";

const NO_TICKET: &str = "00000000000000000000000000000000";

// How many bytes a read brings at most.
const ROOM: usize = 4096;

/// A helper that runs.
#[derive(Drop)]
pub struct Running<P: OpenProcess + Drop> {
    process: Child<P>,
    connection: UnixStream,
    // What it sent that wasn't taken yet.
    heard: ScrubBuf,
    has_greeted: bool,
}

// Why there is no reply: it is late, or its connection failed or ended, or it sent something else.
fn lost() -> Error {
    Error::from(ErrorKind::Other)
}

// What is left until the deadline.
fn left<R: Clock>(rt: &R, deadline: Deadline) -> IoResult<Duration> {
    let now = rt.monotonic()?.as_secs();
    match deadline.left(now) {
        Some(seconds) => Ok(Duration::from_secs(seconds)),
        None => Err(lost()),
    }
}

impl<P: OpenProcess + Drop> Running<P> {
    /// Starts the program at this path with one end of a pair of sockets as its standard input. It gets nothing of our
    /// environment, and shares standard error alone.
    pub fn start<R: Net + Processes<Started = P>>(
        rt: &R,
        alloc: Global,
        path: &str,
        job: &str,
    ) -> IoResult<Running<P>> {
        let (ours, theirs) = UnixStream::pair(rt)?;
        let mut command = Command::new(alloc, path)?;
        command.env_clear();
        command.arg(STANDARD_INPUT)?;
        command.arg(job)?;
        command.arg(NO_TICKET)?;
        command.stdin(Stdio::from(OwnedFd::from(theirs)));
        command.stdout(Stdio::null());
        let process = command.spawn(rt)?;
        Ok(Running {
            process,
            connection: ours,
            heard: ScrubBuf::new(alloc),
            has_greeted: false,
        })
    }

    /// Whether it has ended, or the system doesn't tell. What it sent before that is of no use.
    pub fn has_ended(&mut self) -> bool {
        !matches!(self.process.try_wait(), Ok(None))
    }

    /// Closes the connection, and doesn't wait for the program longer than it takes to kill it.
    pub fn end(self) {
        let Running {
            mut process,
            connection,
            ..
        } = self;
        drop(connection);
        if process.kill().is_ok() {
            let _ = process.wait();
        }
    }

    /// The body of the next frame, where the request goes out and the frame comes in before the deadline, and no more
    /// than that frame.
    pub fn reply_to<R: Clock>(
        &mut self,
        rt: &R,
        alloc: Global,
        request: &[u8],
        deadline: Deadline,
    ) -> Option<ScrubBuf> {
        if !self.has_greeted {
            let hello = self.next_body(rt, alloc, deadline).ok()?;
            if !is_hello(hello.live()) {
                return None;
            }
            self.has_greeted = true;
        }
        if !self.heard.live().is_empty() {
            return None;
        }
        let len = u32::try_from(request.len()).ok()?;
        self.send(rt, &len.to_be_bytes(), deadline).ok()?;
        self.send(rt, request, deadline).ok()?;
        self.next_body(rt, alloc, deadline).ok()
    }

    // Writes all of the bytes.
    fn send<R: Clock>(&mut self, rt: &R, bytes: &[u8], deadline: Deadline) -> IoResult<()> {
        let mut sent = 0;
        'pieces: for _ in 0..u64::MAX {
            if sent >= bytes.len() {
                return Ok(());
            }
            self.connection
                .set_write_timeout(Some(left(rt, deadline)?))?;
            match self.connection.write(&bytes[sent..]) {
                Ok(0) => return Err(lost()),
                Ok(n) => sent += n,
                Err(error) => {
                    if error.kind() != ErrorKind::Interrupted {
                        return Err(error);
                    }
                }
            }
        }
        Err(lost())
    }

    // The body of the frame in front, which is taken.
    fn next_body<R: Clock>(
        &mut self,
        rt: &R,
        alloc: Global,
        deadline: Deadline,
    ) -> IoResult<ScrubBuf> {
        let mut room = [0; ROOM];
        'pieces: for _ in 0..u64::MAX {
            match first(self.heard.live(), LONGEST_BODY) {
                Front::Whole { body, rest } => {
                    let mut taken = ScrubBuf::new(alloc);
                    taken.push_slice(body)?;
                    let count = self.heard.live().len() - rest.len();
                    self.heard.consume(count);
                    return Ok(taken);
                }
                Front::Bad { .. } => return Err(lost()),
                Front::More => {}
            }
            self.connection.set_read_timeout(Some(left(rt, deadline)?))?;
            match self.connection.read(&mut room) {
                Ok(0) => return Err(lost()),
                Ok(n) => self.heard.push_slice(&room[..n])?,
                Err(error) => {
                    if error.kind() != ErrorKind::Interrupted {
                        return Err(error);
                    }
                }
            }
        }
        Err(lost())
    }
}

fn is_hello(body: &[u8]) -> bool {
    matches!(read_from_child(body), Ok(FromChild::Hello { .. }))
}

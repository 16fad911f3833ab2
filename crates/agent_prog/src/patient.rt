//! Standard output, where that is the record without which nothing may be signed: it waits while its disk is full.

use std::io::{Eprint, Error, ErrorKind, Result as IoResult, Write};
use std::thread::sleep;
use std::time::{Clock, Duration};

// Linux's numbers of a disk without room, and of a user's share of it that is used up (errno(3): ENOSPC, EDQUOT).
const NO_ROOM: [i32; 2] = [28, 122];

// So many seconds behind one try the next comes.
const PAUSE: u64 = 1;

/// A writer that waits for room: who writes waits with it, until there is some or a signal ends the process. Where there
/// was none from the start on it doesn't wait, since nothing is lost then.
#[derive(Drop)]
pub struct Patient<'a, R, W> {
    rt: &'a R,
    writer: W,
    waits: bool,
    had_room: bool,
}

impl<'a, R, W> Patient<'a, R, W> {
    /// Waits only where it is to.
    pub fn new(rt: &'a R, writer: W, waits: bool) -> Self {
        Patient {
            rt,
            writer,
            waits,
            had_room: false,
        }
    }
}

impl<R: Clock + Eprint, W: Write> Write for Patient<'_, R, W> {
    fn write(&mut self, bytes: &[u8]) -> IoResult<usize> {
        let mut waited = false;
        for _ in 0..u64::MAX {
            match self.writer.write(bytes) {
                Ok(n) => {
                    self.had_room = true;
                    if waited {
                        let _ = eprintln!(self.rt;
                            "mortarleek: there is room for the record again"
                        );
                    }
                    return Ok(n);
                }
                Err(error) => {
                    if !self.waits || !self.had_room || !is_for_room(&error) {
                        return Err(error);
                    }
                }
            }
            if !waited {
                let _ = eprintln!(self.rt;
                    "mortarleek: no room for the record: nobody is served until there is some"
                );
                waited = true;
            }
            sleep(self.rt, Duration::from_secs(PAUSE));
        }
        Err(Error::from(ErrorKind::TimedOut))
    }

    fn flush(&mut self) -> IoResult<()> {
        self.writer.flush()
    }
}

fn is_for_room(error: &Error) -> bool {
    error
        .raw_os_error()
        .is_some_and(|number| NO_ROOM.contains(&number))
}

//! The system's files as a `Files`: failed reads are counted, and the memory between is wiped.

ghost use Rattle.std.specs.Prelude.{◌≡◌, ◌<◌, ◌≤◌, IfOk, IfSome, None, length};

use crate::errors::is_memory;
use crate::room::{grown, read_from};
use std::alloc::Global;
use std::fs;
use std::fs::OpenFile;
use std::io::{Error, ErrorKind, Read, Result as IoResult};
use std::rt::Files as SystemFiles;
use wiped_bytes::WipedBytes;
use world_ports::{FileFault, Files};

/// The files of the system, of which nothing is told. Failed reads are counted.
#[derive(Drop)]
pub struct RealFiles<'a, R> {
    rt: &'a R,
    faults: u64,
    /// Why the last read that failed did.
    reason: Option<ErrorKind>,
}

impl<'a, R> RealFiles<'a, R> {
    pub fn new(rt: &'a R) -> Self
        ensures { result.faults ≡ 0 }
    {
        RealFiles {
            rt,
            faults: 0,
            reason: None,
        }
    }

    /// Why the last read that failed did, in the system's words.
    pub fn reason(&self) -> Option<ErrorKind> {
        self.reason
    }
}

impl<R: SystemFiles> Files for RealFiles<'_, R> {
    ghost seen = { λ s. record { held = None; failed = None; faults = s.faults } };

    fn read(&mut self, alloc: Global, path: &str, max: u64) -> Result<Vec<u8>, FileFault> {
        match read_file(self.rt, alloc, path, max) {
            Ok(Some(bytes)) => Ok(bytes),
            Ok(None) => Err(FileFault::TooLong),
            Err(error) if is_memory(&error) => Err(FileFault::Memory),
            Err(error) => {
                self.faults = self.faults.saturating_add(1);
                self.reason = Some(error.kind());
                Err(FileFault::Failed)
            }
        }
    }
}

/// How many bytes there is room for at least, where a file tells of less or of none.
const LEAST_ROOM: u64 = 4096;

// The bytes of a file, or `None` where it has more than `max`. They may be those of a key: what the
// caller isn't given is zero before its memory is given back. Room is taken for as many as the file tells of,
// and for one more, so that its end is met with no more room: the bytes are handed on where they were read.
fn read_file<R: SystemFiles>(
    rt: &R,
    alloc: Global,
    path: &str,
    max: u64,
) -> IoResult<Option<Vec<u8>>>
    ensures { IfOk result (λ read. IfSome read (λ bytes. length bytes.items ≤ max)) }
{
    let mut file = fs::open(rt, path)?;
    let told = file.metadata()?.len().min(max);
    let room = WipedBytes::zeros(alloc, told.max(LEAST_ROOM).saturating_add(1) as usize)?;
    read_all(alloc, &mut file, room, max)
}

// The bytes of a reader, or `None` where it has more than `max`. The room grows where there are more than it has.
pub fn read_all<F: Read>(
    alloc: Global,
    file: &mut F,
    room: WipedBytes,
    max: u64,
) -> IoResult<Option<Vec<u8>>>
    requires { 0 < length room }
    ensures { IfOk result (λ read. IfSome read (λ bytes. length bytes.items ≤ max)) }
{
    let mut room = room;
    let mut len = 0;
    'pieces: for _ in 0..u64::MAX {
        if len == room.len() {
            room = grown(alloc, room)?;
        }
        match read_from(file, &mut room, len) {
            Ok(0) => return Ok(Some(room.into_front(len))),
            Ok(n) => {
                if n as u64 > max - len as u64 {
                    return Ok(None);
                }
                len += n;
            }
            Err(error) => {
                if error.kind() != ErrorKind::Interrupted {
                    return Err(error);
                }
            }
        }
    }
    Err(Error::from(ErrorKind::TimedOut))
}

//! Takes the lock of a socket's path, so that two agents never make or remove it at once.

use std::fs;
use std::fs::{File, Files, OpenOptions, TryLockError};
use std::io::{Error, ErrorKind, Result as IoResult};
use std::os::unix::fs::OpenOptionsExt;
use std::time::{Clock, Duration};

// Others hold it for as long as a bind takes.
const TRIES: u64 = 100;

const PAUSE_MILLIS: u64 = 50;

// Takes the lock of the file at this path, which is made where there is none and never removed. It is given back when
// what comes back is dropped, and no child process inherits it. Nothing but a regular file is opened.
pub fn hold<R: Files<File = File> + Clock>(rt: &R, path: &str) -> IoResult<File> {
    if let Ok(metadata) = fs::symlink_metadata(rt, path) {
        if !metadata.file_type().is_file() {
            return Err(Error::from(ErrorKind::AlreadyExists));
        }
    }
    let mut how = OpenOptions::new();
    how.read(true).write(true).create(true).mode(0o600);
    let file = how.open(rt, path)?;
    for _ in 0..TRIES {
        match file.try_lock() {
            Ok(()) => return Ok(file),
            Err(TryLockError::WouldBlock) => rt.sleep(Duration::from_millis(PAUSE_MILLIS)),
            Err(TryLockError::Error(error)) => return Err(error),
        }
    }
    Err(Error::from(ErrorKind::WouldBlock))
}

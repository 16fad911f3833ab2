//! The lock by which of all relays of one agent only one asks the user at a time.

use crate::dialog::value_of;
use crate::watched::await_peer;
use std::alloc::AllocGlobal;
use std::env::Env;
use std::fs;
use std::fs::{File, Files, OpenOptions, TryLockError};
use std::io::{Error, ErrorKind, Result as IoResult};
use std::os::unix::fs::{MetadataExt, OpenOptionsExt};

// The variable that names the file that the relays of one agent lock.
const QUESTIONS: &str = "MORTARLEEK_QUESTIONS";

// How long a relay waits between two tries.
const PAUSE_MILLIS: i32 = 50;

// What others than its owner may do with a file.
const TO_OTHERS: u32 = 0o077;

// Opens the file, which is made where there is none: a plain file that nobody but its owner can open, and so nobody
// else can lock.
fn open_own<R: Files<File = File>>(rt: &R, path: &str) -> IoResult<File> {
    if let Ok(metadata) = fs::symlink_metadata(rt, path) {
        if !metadata.file_type().is_file() {
            return Err(Error::from(ErrorKind::AlreadyExists));
        }
    }
    let mut how = OpenOptions::new();
    how.read(true).write(true).create(true).mode(0o600);
    let file = how.open(rt, path)?;
    if file.metadata()?.mode() & TO_OTHERS != 0 {
        return Err(Error::from(ErrorKind::PermissionDenied));
    }
    Ok(file)
}

/// Waits until no other relay of this agent asks. What it gives keeps the others waiting until it is dropped, or this
/// process ends. Fails where the peer of the connection shuts its end before that.
///
/// Where no file is named, or it can't be locked, nobody is waited for: that keeps no question from the user.
pub fn await_turn<R: Files<File = File> + Env + AllocGlobal>(
    rt: &R,
    connection: i32,
) -> IoResult<Option<File>> {
    let Some(path) = value_of(rt, QUESTIONS)? else {
        return Ok(None);
    };
    let Ok(file) = open_own(rt, path.as_str()) else {
        return Ok(None);
    };
    for _ in 0..u64::MAX {
        match file.try_lock() {
            Ok(()) => {
                await_peer(connection, 0)?;
                return Ok(Some(file));
            }
            Err(TryLockError::WouldBlock) => await_peer(connection, PAUSE_MILLIS)?,
            Err(TryLockError::Error(_)) => return Ok(None),
        }
    }
    Err(Error::from(ErrorKind::TimedOut))
}

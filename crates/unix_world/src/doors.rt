//! Listeners at socket files: makes the files or takes sockets that are open, gives a bounded number a round, removes
//! the files.

ghost use Rattle.std.specs.Prelude.{IsTrue};

use crate::lock::hold;
use libc::geteuid;
use libc::net::listen;
use mio::net::{UnixListener, UnixStream};
use std::fs::{File, Files, Metadata, Permissions};
use std::io::{Error, ErrorKind};
use std::net::Net;
use std::os::fd::{AsFd, AsRawFd, OwnedFd};
use std::os::unix::fs::{FileTypeExt, MetadataExt, PermissionsExt};
use std::os::unix::net;
use std::os::unix::net::SocketAddr;
use std::time::Clock;
use std::{fs, io};

// What others than the owner may do.
const OF_OTHERS: u32 = 0o077;

// How many connections a listener gives between two polls: whoever else waits isn't kept out by a flood of them.
const MOST_A_ROUND: u32 = 16;

/// A listener, and what the next poll has to tell of it.
#[derive(Drop)]
pub struct Listener {
    pub listener: UnixListener,
    // A connection couldn't be taken, as for want of descriptors. epoll doesn't report it again, so it is to be tried
    // once more.
    pub is_stuck: bool,
    // There may be a connection that epoll doesn't report again: the next poll tells of the listener, and doesn't wait.
    pub is_owed: bool,
    // A connection was left waiting while as many were open as may be.
    pub is_withheld: bool,
    // How many connections were taken since the last poll.
    taken: u32,
}

impl Listener {
    /// The next connection. None where none waits, or as many were taken in this round as may be.
    pub fn next(&mut self) -> io::Result<Option<UnixStream>> {
        if self.taken >= MOST_A_ROUND {
            self.is_owed = true;
            return Ok(None);
        }
        match self.listener.accept() {
            Ok((stream, _)) => {
                self.taken += 1;
                Ok(Some(stream))
            }
            Err(error) if error.kind() == ErrorKind::WouldBlock => Ok(None),
            Err(error) => {
                self.is_stuck = true;
                Err(error)
            }
        }
    }

    /// Whether a poll has to tell of this listener.
    pub fn is_due(&self) -> bool
        ensures { IsTrue self.now.is_owed → IsTrue result }
    {
        self.is_stuck || self.is_owed
    }

    /// A poll told of what there is: a round begins.
    pub fn renew(&mut self) {
        self.is_stuck = false;
        self.is_owed = false;
        self.taken = 0;
    }

    /// A connection was closed: who was left waiting may come.
    pub fn make_room(&mut self) {
        if self.is_withheld {
            self.is_withheld = false;
            self.is_owed = true;
        }
    }
}

/// Which file of the system one is, whatever its path.
#[derive(Clone, Copy, PartialEq, Eq)]
pub struct FileId {
    device: u64,
    inode: u64,
}

impl FileId {
    /// That of a file.
    pub fn of(metadata: &Metadata) -> FileId {
        FileId {
            device: metadata.dev(),
            inode: metadata.ino(),
        }
    }
}

/// The file of a listener.
#[derive(Drop)]
pub struct BoundFile {
    pub path: String,
    pub lock: String,
    // What relays lock, so that one question at a time is shown. The first of them makes it.
    pub questions: String,
    /// Which file this process made. None where whoever started it had made the file, whose it stays.
    pub made: Option<FileId>,
}

/// Removes a file that was made, where it is still the one that was made. Where its lock can't be had it stays: nobody
/// listens there, so the next that comes replaces it.
pub fn remove_bound<R: Files<File = File> + Clock>(rt: &R, file: &BoundFile) {
    let Some(made) = file.made else {
        let _ = fs::remove_file(rt, file.questions.as_str());
        return;
    };
    let Ok(held) = hold(rt, file.lock.as_str()) else {
        return;
    };
    if let Ok(metadata) = fs::symlink_metadata(rt, file.path.as_str()) {
        if FileId::of(&metadata) == made {
            let _ = fs::remove_file(rt, file.path.as_str());
            let _ = fs::remove_file(rt, file.questions.as_str());
        }
    }
    drop(held);
}

/// A listener at a path whose file only the user may open, and which file that is. A file that nobody listens at any more
/// is replaced. All of it is done while the lock is held, so no other agent finds the file half made.
pub fn listen_at<R: Files<File = File> + Net + Clock>(
    rt: &R,
    path: &str,
    lock: &str,
) -> io::Result<(Listener, FileId)> {
    let held = hold(rt, lock)?;
    let made = replace_at(rt, path)?;
    let metadata = fs::symlink_metadata(rt, path)?;
    drop(held);
    Ok((made, FileId::of(&metadata)))
}

/// The listener of a socket that is open already, at a path whose file only this user may open. The lock is held, so that
/// who waits for it finds the listener whole.
pub fn listen_by<R: Files<File = File> + Clock>(
    rt: &R,
    fd: OwnedFd,
    path: &str,
    lock: &str,
) -> io::Result<Listener> {
    let held = hold(rt, lock)?;
    let listener = net::UnixListener::from(fd);
    if !is_named(rt, &listener.local_addr()?, path)? {
        return Err(Error::from(ErrorKind::PermissionDenied));
    }
    let made = begin_listening(listener)?;
    drop(held);
    Ok(made)
}

// The socket's own name and the path are one file: a socket of this user's that no other may open.
fn is_named<R: Files>(rt: &R, name: &SocketAddr, path: &str) -> io::Result<bool> {
    let Some(name) = name.as_pathname() else {
        return Ok(false);
    };
    let named = fs::symlink_metadata(rt, name)?;
    let found = fs::symlink_metadata(rt, path)?;
    Ok(
        FileId::of(&named) == FileId::of(&found)
            && found.file_type().is_socket()
            && found.uid() == geteuid()
            && found.mode() & OF_OTHERS == 0,
    )
}

fn replace_at<R: Files + Net>(rt: &R, path: &str) -> io::Result<Listener> {
    match bind_at(rt, path) {
        Ok(door) => Ok(door),
        Err(error) => {
            if error.kind() != ErrorKind::AddrInUse || !is_stale(rt, path) {
                return Err(error);
            }
            fs::remove_file(rt, path)?;
            bind_at(rt, path)
        }
    }
}

// A file that was made goes again where listening at it fails.
fn bind_at<R: Files + Net>(rt: &R, path: &str) -> io::Result<Listener> {
    let fd = rt.unix_socket()?;
    rt.bind_unix(fd.as_fd(), &SocketAddr::from_pathname(path)?)?;
    match listen_on(rt, fd, path) {
        Ok(door) => Ok(door),
        Err(error) => {
            let _ = fs::remove_file(rt, path);
            Err(error)
        }
    }
}

// The file has its mode before anybody can connect.
fn listen_on<R: Files + Net>(rt: &R, fd: OwnedFd, path: &str) -> io::Result<Listener> {
    fs::set_permissions(rt, path, Permissions::from_mode(0o600))?;
    begin_listening(net::UnixListener::from(fd))
}

// It listens from now on, if it didn't.
fn begin_listening(listener: net::UnixListener) -> io::Result<Listener> {
    if listen(listener.as_raw_fd(), -1) < 0 {
        return Err(Error::from(ErrorKind::Other));
    }
    listener.set_nonblocking(true)?;
    Ok(Listener {
        listener: UnixListener::from_std(listener),
        is_stuck: false,
        is_owed: false,
        is_withheld: false,
        taken: 0,
    })
}

// The file is a socket, and nobody listens at it. A live agent sees the try as a client that connects and leaves.
// A connection to a file of another kind is refused too.
fn is_stale<R: Files + Net>(rt: &R, path: &str) -> bool {
    let Ok(metadata) = fs::symlink_metadata(rt, path) else {
        return false;
    };
    if !metadata.file_type().is_socket() {
        return false;
    }
    match UnixStream::connect(rt, path) {
        Ok(_) => false,
        Err(error) => error.kind() == ErrorKind::ConnectionRefused,
    }
}

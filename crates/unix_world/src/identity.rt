//! Tells whether the program at a path is still the file that it was at the agent's start.

use std::alloc::Global;
use std::fs;
use std::fs::Files;
use std::io::Result as IoResult;
use std::os::unix::fs::MetadataExt;

// Others than the owner may write.
const WRITABLE: u32 = 0o022;

const ROOT: u32 = 0;

// A path has at most so many bytes, and fewer folders.
const LONGEST_PATH: u64 = 4096;

/// A file as it stood at a path. Another one in its place, and a change of its bytes, its mode or its owner, shows in one
/// of these.
#[derive(Clone, Copy, PartialEq, Eq)]
struct Identity {
    device: u64,
    inode: u64,
    changed: i64,
    changed_nanos: i64,
}

/// A program's path, and the file that stood there when the agent was started.
#[derive(Drop)]
pub struct Known {
    identity: Option<Identity>,
    is_told: bool,
}

fn identity_of<R: Files>(rt: &R, path: &str) -> Option<Identity> {
    let Ok(metadata) = fs::metadata(rt, path) else {
        return None;
    };
    Some(Identity {
        device: metadata.dev(),
        inode: metadata.ino(),
        changed: metadata.ctime(),
        changed_nanos: metadata.ctime_nsec(),
    })
}

// The file, and each folder above it, belongs to root, and nobody else may write there.
fn is_roots<R: Files>(rt: &R, alloc: Global, path: &str) -> IoResult<bool> {
    let mut place = rt.canonicalize(alloc, path)?;
    for _ in 0..LONGEST_PATH {
        let metadata = fs::symlink_metadata(rt, place.as_str())?;
        if metadata.uid() != ROOT || metadata.mode() & WRITABLE != 0 {
            return Ok(false);
        }
        if !place.pop() {
            return Ok(true);
        }
    }
    Ok(false)
}

impl Known {
    /// The file that stands at this path now. A bare name is searched at each start, so no file is known by it.
    pub fn new<R: Files>(rt: &R, path: &str) -> Known {
        Known {
            identity: identity_of(rt, path),
            is_told: false,
        }
    }

    /// Whether a program may be started from this path: the file is the one that was there, or root alone puts files
    /// there.
    pub fn may_start<R: Files>(&self, rt: &R, alloc: Global, path: &str) -> IoResult<bool> {
        if !path.contains('/') {
            return Ok(true);
        }
        let now = identity_of(rt, path);
        if now.is_some() && now == self.identity {
            return Ok(true);
        }
        is_roots(rt, alloc, path)
    }

    /// A start was refused. Whether that is the first time.
    pub fn tell(&mut self) -> bool {
        let is_first = !self.is_told;
        self.is_told = true;
        is_first
    }
}

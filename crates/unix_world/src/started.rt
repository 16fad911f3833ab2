//! A child process that runs: the hello that it owes, its end, and how it is killed and reaped.

use crate::hello::Hello;
use std::process::{Child, OpenProcess};

/// A child process, and what it has to say first.
#[derive(Drop)]
pub struct Started<P: OpenProcess + Drop> {
    process: Child<P>,
    pub hello: Hello,
    has_ended: bool,
    /// From this second on it is killed, once its connection was closed.
    pub due: u64,
}

impl<P: OpenProcess + Drop> Started<P> {
    pub fn new(process: Child<P>, hello: Hello) -> Started<P> {
        Started {
            process,
            hello,
            has_ended: false,
            due: u64::MAX,
        }
    }

    /// Asks the system whether it has ended, and doesn't wait for that. One that has is reaped.
    pub fn reap(&mut self) {
        if !self.has_ended && matches!(self.process.try_wait(), Ok(Some(_)) | Err(_)) {
            self.has_ended = true;
        }
    }

    /// Whether it was reaped.
    pub fn has_ended(&self) -> bool {
        self.has_ended
    }

    /// Kills it, unless it was reaped. It is reaped later.
    pub fn kill(&mut self) {
        if !self.has_ended {
            let _ = self.process.kill();
        }
    }
}

//! A wrapper of any files, which keeps the path of the one that was read last.

use std::alloc::Global;
use world_ports::{FileFault, Files};

/// Files, and the path of the one that was read last.
#[derive(Drop)]
pub struct Named<F> {
    files: F,
    last: Option<String>,
}

impl<F: Files> Named<F> {
    pub fn new(files: F) -> Self {
        Named { files, last: None }
    }

    /// The path that was read last. `None` too where no memory was left to keep it.
    pub fn take_last(&mut self) -> Option<String> {
        self.last.take()
    }

    pub fn files(&self) -> &F {
        &self.files
    }
}

impl<F: Files> Files for Named<F> {
    ghost seen = { λ s. F.seen s.files };

    fn read(&mut self, alloc: Global, path: &str, max: u64) -> Result<Vec<u8>, FileFault> {
        self.last = String::from_str(alloc, path).ok();
        self.files.read(alloc, path, max)
    }
}

//! Words of `serve`, and lifetimes.

use crate::input::bytes_of;
use serve_words::{ServeFault, ServeWords, read_serve};
use std::alloc::{AllocError, Global};
use std::io;
use world_ports::read_life;

/// What the words of a command say, or that they are no such command.
pub(crate) fn words_of(alloc: Global, line: &str) -> io::Result<Option<String>> {
    match read(alloc, line)? {
        Ok(served) => Ok(Some(format!(in alloc; "{served:?}")?)),
        Err(fault) => Ok(Some(format!(in alloc; "{fault:?}")?)),
    }
}

fn read(alloc: Global, line: &str) -> Result<Result<ServeWords, ServeFault>, AllocError> {
    let mut words = Vec::new(alloc);
    for word in line.split_whitespace() {
        words.push(String::from_str(alloc, word)?)?;
    }
    Ok(read_serve(alloc, &words))
}

/// The seconds of a lifetime, or `None`.
pub(crate) fn life_of(alloc: Global, word: &str) -> io::Result<Option<String>> {
    let text = bytes_of(alloc, word)?;
    Ok(Some(format!(in alloc; "{:?}", read_life(&text))?))
}

//! The descriptors that whoever started the agent had open.

use libc::close;
use std::alloc::Global;
use std::fs;
use std::io::Result as IoResult;

// The first descriptor behind the three standard ones.
const FIRST: i32 = 3;

// Where the system doesn't tell which are open, those below this are closed.
const PAST_LAST: i32 = 1024;

/// Closes each descriptor but the three standard ones, so that neither the agent nor a child process of it keeps a
/// file, a lock or a connection of others open.
pub fn close_inherited(rt: &HostRuntime, alloc: Global) {
    match open_ones(rt, alloc) {
        Ok(numbers) => {
            for number in numbers.iter() {
                close_above(*number);
            }
        }
        Err(_) => {
            for number in FIRST..PAST_LAST {
                close_above(number);
            }
        }
    }
}

fn close_above(number: i32) {
    if number >= FIRST {
        let _ = close(number);
    }
}

// Those that are open. That of the listing is among them, and closed by then.
fn open_ones(rt: &HostRuntime, alloc: Global) -> IoResult<Vec<i32>> {
    let mut numbers = Vec::new(alloc);
    for entry in fs::read_dir(rt, "/proc/self/fd")? {
        if let Ok(number) = entry?.file_name().parse::<i32>() {
            numbers.push(number)?;
        }
    }
    Ok(numbers)
}

//! Memory that a file's bytes are read into: it grows by moving, and what is left behind is wiped.

ghost use Rattle.std.specs.Prelude.{◌≡◌, ◌+◌, ◌<◌, ◌≤◌, IfOk, length};

use std::alloc::{AllocError, Global};
use std::io::{Read, Result as IoResult};
use wiped_bytes::WipedBytes;

/// Twice the room, with the bytes at its front.
pub fn grown(alloc: Global, room: WipedBytes) -> Result<WipedBytes, AllocError>
    requires { 0 < length room }
    ensures { IfOk result (λ larger. length room < length larger) }
{
    let len = room.len();
    let size = len.checked_mul(2).ok_or(AllocError)?;
    let mut larger = WipedBytes::zeros(alloc, size)?;
    larger.as_mut_slice()[..len].copy_from_slice(room.as_slice());
    Ok(larger)
}

/// Reads once, behind the first `start` bytes, and gives how many bytes that brought.
pub fn read_from<F: Read>(file: &mut F, room: &mut WipedBytes, start: usize) -> IoResult<usize>
    requires { start ≤ length room.old }
    ensures len { length room.new ≡ length room.old }
    ensures read { IfOk result (λ n. start + n ≤ length room.old) }
{
    file.read(&mut room.as_mut_slice()[start..])
}

//! What errors of the system mean.

use std::io::{Error, ErrorKind};

/// Memory ran out in this process. The system's own want of memory has a number, and is a failure.
pub fn is_memory(error: &Error) -> bool {
    error.kind() == ErrorKind::OutOfMemory && error.raw_os_error().is_none()
}

//! Reads the system's clocks: seconds with those slept, and milliseconds at the last tick.

use libc::clock_gettime;
use libc::types::timespec;
use std::time::Clock;

// Linux's clock since the machine was started, which the C library's list of clocks has under this number.
const CLOCK_BOOTTIME: i32 = 7;

// Linux's monotonic clock as it stood at the kernel's last tick, which costs next to nothing to read.
const CLOCK_MONOTONIC_COARSE: i32 = 6;

// The milliseconds of the monotonic clock at the kernel's last tick, which was some milliseconds ago at the most.
#[inline(always)]
pub fn last_tick() -> Option<u64> {
    let mut time = timespec {
        tv_sec: 0,
        tv_nsec: 0,
    };
    if clock_gettime(CLOCK_MONOTONIC_COARSE, &mut time) != 0 {
        return None;
    }
    let seconds = u64::try_from(time.tv_sec).ok()?;
    let nanos = u64::try_from(time.tv_nsec).ok()?;
    seconds.checked_mul(1000)?.checked_add(nanos / 1_000_000)
}

// Whole seconds since the machine was started, with those that it slept; where the system has no such clock, of the
// monotonic one, which stands still meanwhile.
pub fn seconds<R: Clock>(rt: &R) -> Option<u64> {
    let mut time = timespec {
        tv_sec: 0,
        tv_nsec: 0,
    };
    if clock_gettime(CLOCK_BOOTTIME, &mut time) == 0 {
        return u64::try_from(time.tv_sec).ok();
    }
    match rt.monotonic() {
        Ok(since) => Some(since.as_secs()),
        Err(_) => None,
    }
}

//! Core files, which hold what the memory held.

use libc::getrlimit;
use libc::types::rlimit;

// Linux's number of the limit on the size of a core file.
const RLIMIT_CORE: i32 = 4;

// A file of a byte holds nothing; Linux takes this limit for a no, of a program that is handed cores too.
const NOTHING: u64 = 1;

/// Whether the system may write a core file of this process, as far as its limit says.
pub fn may_dump() -> bool {
    let mut limit = rlimit {
        rlim_cur: 0,
        rlim_max: 0,
    };
    getrlimit(RLIMIT_CORE, &mut limit) == 0 && limit.rlim_cur > NOTHING
}

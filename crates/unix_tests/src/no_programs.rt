//! Programs for a world that starts none.
use std::alloc::Global;
use unix_world::Programs;

/// No program is named.
pub fn no_programs(alloc: Global) -> Programs {
    Programs {
        helper: String::new(alloc),
        helper_data: None,
        relay: None,
        askpass: None,
    }
}

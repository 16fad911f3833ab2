//! Code that the dynamic loader was told to load beside the program's own.

use std::alloc::AllocGlobal;
use std::env;
use std::env::{Env, VarError};

// The variables of ld.so(8) that name libraries, folders of libraries, and what watches them.
const NAMES: [&str; 3] = ["LD_PRELOAD", "LD_LIBRARY_PATH", "LD_AUDIT"];

/// The first variable that named such code as the process was started.
pub fn named_by<R: Env + AllocGlobal>(rt: &R) -> Option<&'static str> {
    for name in NAMES {
        match env::var(rt, name) {
            Ok(value) if value.is_empty() => {}
            Ok(_) | Err(VarError::NotUnicode) => return Some(name),
            Err(VarError::NotPresent | VarError::OutOfMemory) => {}
        }
    }
    None
}

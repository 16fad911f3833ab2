//! An audit of a recorded run. `audit_prog RECORD DEEDS [LIFE] [--confirm-limit SECONDS]` runs the record again, compares
//! what it prints with what an agent is said to have printed for it, and lists each signature that was asked for. `audit_main` of audit_core is
//! the program; here are its words, its files and its output, and what it says on standard error.
#![tactic(auto)]

use audit_core::{AuditStatus, audit_main};
use real_edge::{RealFiles, is_memory};
use std::env;
use std::io::Result as IoResult;
use std::process::ExitCode;
use world_ports::{Files, Writing};

fn run<F: Files>(rt: &HostRuntime, files: &mut F) -> IoResult<AuditStatus> {
    let alloc = rt.alloc();
    let words: Vec<String> = env::args(rt)?.skip(1).collect(alloc)?;
    let mut output = Writing::new(rt.stdout());
    Ok(audit_main(alloc, &words, files, &mut output))
}

fn main(rt: HostRuntime) -> ExitCode {
    let mut files = RealFiles::new(&rt);
    let status = match run(&rt, &mut files) {
        Ok(status) => status,
        Err(error) if is_memory(&error) => AuditStatus::Memory,
        // Words that can't be read are no form of the program's.
        Err(_) => AuditStatus::Usage,
    };
    if status != AuditStatus::Yes {
        let _ = eprintln!(rt; "audit_prog: {status}");
    }
    ExitCode::from(status.code())
}

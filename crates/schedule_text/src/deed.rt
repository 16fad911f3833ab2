//! What a run of a schedule prints.

use crate::LineFault;
use world_ports::Job;

/// One line of the output of a run.
#[derive(Clone, Copy, Debug, PartialEq, Eq)]
pub enum Deed<'a> {
    /// `to PORT HEX`: the port takes these bytes.
    To { port: u64, bytes: &'a [u8] },
    /// `close PORT`: the port is closed.
    Close(u64),
    /// `start JOB KIND`: a child process is to be started.
    Start(Job),
    /// `refused LINE FAULT`: the run stops at this line, counted from 1.
    Refused { line: u64, fault: LineFault },
    /// `end`: the schedule was run to its end.
    End,
}

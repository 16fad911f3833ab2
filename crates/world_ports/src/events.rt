//! The doors, jobs and moments that the calls on a world speak of.

/// A listener: of the agent's clients, or of the child processes that it started.
#[derive(Clone, Copy, Debug, PartialEq, Eq)]
pub enum Door {
    Clients,
    Children,
}

/// What a child process is for.
#[derive(Clone, Copy, Debug, PartialEq, Eq)]
pub enum JobKind {
    /// It holds the private keys and makes the signatures.
    Helper,
    /// It asks the user.
    Confirm,
}

/// A child process to start. Jobs are numbered from 1, in the order in which they are begun.
#[derive(Clone, Copy, Debug, PartialEq, Eq)]
pub struct Job {
    pub number: u64,
    pub kind: JobKind,
}

/// A reading of both clocks, in whole seconds.
#[derive(Clone, Copy, Debug, PartialEq, Eq)]
pub struct Moment {
    /// Of the monotonic clock, which never goes back. Its start is the system's.
    pub mono: u64,
    /// Since the Unix epoch, by the wall clock, which may be set.
    pub wall: u64,
}

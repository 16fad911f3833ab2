//! How far the link has come: without a helper, with one being started, or with one at a port.

/// How far the link has come.
#[derive(Clone, Copy, Debug, PartialEq, Eq)]
pub enum LinkState {
    /// No helper is there, and none is being started.
    None,
    /// A helper is being started by this job.
    Starting { job: u64 },
    /// The helper is at this port.
    Linked { port: u64 },
}

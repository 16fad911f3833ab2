//! How a turn ends.

/// How a turn ended.
#[derive(Clone, Copy, Debug, PartialEq, Eq)]
pub enum Turn {
    /// Something was served, a job was started, or a look at the clock brought something to do.
    Served,
    /// The world was polled.
    Polled,
    /// Nothing will become ready any more.
    Over,
}

/// Why a turn failed. The hub can only be dropped then.
#[derive(Clone, Copy, Debug, PartialEq, Eq)]
pub enum HubFault {
    /// The outside refused a poll.
    Poll,
    /// Memory ran out. Says nothing of the outside.
    Memory,
}

/// How the loop ended.
#[derive(Clone, Copy, Debug, PartialEq, Eq)]
pub enum ServeEnd {
    /// Nothing will become ready any more.
    Over,
    /// A client has come, none is left, and nothing can be served.
    Idle,
    /// A listener couldn't be bound.
    BindFault,
    /// The outside refused a poll.
    PollFault,
    /// Memory ran out. Says nothing of the outside.
    Memory,
}

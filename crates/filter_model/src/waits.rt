//! Which reply of the agent behind a pair of the filter waits for, if any.

/// What a pair waits for.
#[derive(Clone, Copy, Debug, PartialEq, Eq)]
pub enum Waits {
    /// Nothing: the client's next request is taken.
    Nothing,
    /// The list of keys.
    OnList,
    /// The reply to a bind.
    OnBind,
    /// Another reply.
    OnReply,
}

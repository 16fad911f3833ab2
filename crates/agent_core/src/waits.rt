//! What a client may wait for: nothing, the helper's answer to an ask, or the user's consent.

/// What a client waits for.
#[derive(Clone, Copy, Debug, PartialEq, Eq)]
pub enum Waits {
    Nothing,
    /// The helper's answer to this ask.
    OnAsk { ask: u64 },
    /// The user's consent, which the child process of this job asks for.
    OnConfirmation { job: u64 },
}

//! The messages between the agent and a child process, in both directions.

/// What a child process sends to the agent.
///
/// Has no `Debug`, since it may hold a one-time ticket.
#[derive(Clone, Copy, PartialEq, Eq)]
pub enum FromChild<'a> {
    /// The first message of a child: the job that it was started for, and its one-time ticket.
    Hello { job: u64, ticket: [u8; 16] },
    /// The signature that was asked for.
    Signed { ask: u64, signature: &'a [u8] },
    /// No signature is given.
    Refused { ask: u64 },
    /// The signature that was to be verified is right.
    True { ask: u64 },
    /// It isn't.
    False { ask: u64 },
    /// The user allows the use of the key.
    Granted { job: u64 },
    /// The user doesn't, or wasn't asked.
    Denied { job: u64 },
}

/// What the agent sends to a child process.
///
/// Has no `Debug`, since it lends a private key.
#[derive(Clone, Copy)]
pub enum ToChild<'a> {
    /// Sign `message` with the private key, whose public key blob is `blob`.
    Sign {
        ask: u64,
        private: &'a [u8],
        blob: &'a [u8],
        message: &'a [u8],
        flags: u32,
    },
    /// Verify that the host key made the signature over the session identifier.
    Verify {
        ask: u64,
        host_key: &'a [u8],
        signature: &'a [u8],
        session: &'a [u8],
    },
    /// Ask the user.
    Confirm {
        job: u64,
        prompt: &'a [u8],
    },
}

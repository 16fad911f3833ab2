//! What the helper is asked to verify.

ghost use Rattle.std.specs.Prelude.{◌≡◌, MatchOption};
ghost use Rattle.std.specs.List.{position};
ghost use Rattle.lists.specs.Keyed.{has_key};
ghost use Rattle.under_way.specs.Verifications.{IsForNone, IsVerificationAt, asked_by};

use plain_lists::Bytes;

/// A binding of a client's connection, whose signature the helper was asked to verify.
#[derive(Drop)]
pub struct Verification {
    /// The number of the ask.
    pub ask: u64,
    /// The host key, whose signature it is.
    pub host_key: Bytes,
    /// The session identifier that was signed.
    pub session: Bytes,
    /// Whether the agent is to be forwarded to that host.
    pub forwarding: bool,
    /// Whether the binding is to be added to the connection's once its signature is right.
    pub is_new: bool,
}

/// Where the verification that this ask is for stands.
pub fn place_of_verification(verifications: &[Verification], ask: u64) -> Option<usize>
    ensures { MatchOption result (IsForNone ask verifications.now)
        (λ place. IsVerificationAt ask verifications.now place) }
{
    first_of_verifications(verifications, ask)
}

fn first_of_verifications(verifications: &[Verification], ask: u64) -> Option<usize>
    ensures { result ≡ position (has_key asked_by ask) verifications.now }
{
    verifications.iter().position(|one| one.ask == ask)
}

//! How much room an identity takes beside its blob and its comment.

ghost use Rattle.std.specs.Prelude.{◌≡◌, ◌+◌, ◌*◌, ◌-◌, ◌^◌, ◌<◌, ◌≤◌, length, min, MatchBool};
ghost use Rattle.std.specs.List.{sum_by};
ghost use Rattle.identity_table.specs.Identities.{hop_len};

use constraint_rec::{Constraint, Hop};

// The most room that the private strings, the purposes and the constraints of all identities take, in bytes.
const MOST_KEPT: usize = 8_388_608;

// What a hop and each of its keys take beside their bytes.
const OVERHEAD: usize = 64;

// How often a hop's host counts: each list may hold it against the principals of certificates, which takes
// more time than it takes memory.
const HOST_WEIGHT: usize = 8;

// What a purpose takes: it has at most 255 bytes.
const PURPOSE: usize = 320;

/// How much room a private string of so many bytes, so many purposes and these constraints take, in
/// bytes, or the greatest number where that is more.
pub fn room_of(private: usize, purposes: usize, rules: &[Constraint]) -> usize
    ensures { result ≡ min (private + 320 * purposes
        + sum_by (λ rule. hop_len rule.from + hop_len rule.to) rules.now) (2 ^ 64 - 1) }
{
    let mut room = private.saturating_add(PURPOSE.saturating_mul(purposes));
    for rule in rules {
        room = room
            .saturating_add(room_of_hop(&rule.from))
            .saturating_add(room_of_hop(&rule.to));
    }
    room
}

/// Whether a private string of so many bytes, so many purposes and these constraints have room beside
/// others that take so much.
pub fn is_room_beside(others: usize, private: usize, purposes: usize, rules: &[Constraint]) -> bool
    requires { others ≤ 8388608 }
    ensures { MatchBool result
        (others + (private + 320 * purposes
        + sum_by (λ rule. hop_len rule.from + hop_len rule.to) rules.now) ≤ 8388608)
        (8388608 < others + (private + 320 * purposes
        + sum_by (λ rule. hop_len rule.from + hop_len rule.to) rules.now)) }
{
    room_of(private, purposes, rules) <= MOST_KEPT - others
}

// How much room a hop takes, or the greatest number where that is more.
fn room_of_hop(hop: &Hop) -> usize
    ensures { result ≡ min (hop_len hop.now) (2 ^ 64 - 1) }
{
    let mut room = OVERHEAD
        .saturating_add(hop.user.len())
        .saturating_add(hop.host.len().saturating_mul(HOST_WEIGHT));
    for key in hop.keys.as_slice() {
        room = room.saturating_add(OVERHEAD).saturating_add(key.blob.len());
    }
    room
}

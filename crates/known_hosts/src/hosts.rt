//! Whether a host field takes in a host.

ghost use Rattle.std.specs.Prelude.{◌≡◌, IfOk, MatchOption};
ghost use Rattle.pattern_core.specs.PatternLists.{lowered};
ghost use Rattle.known_hosts.specs.Hosts.{takes_in, is_in_list, is_hashed, is_hash};

use crate::parts::{Mark, Parts};
use hmac_core::hmac_sha1;
use key_file::decoded;
use pattern_core::list_matches;
use std::alloc::{AllocError, Global};

const HASHED: &[u8] = b"|1|";

/// Whether the digest is the hash of the host in lower case, under the salt. Both are in base64.
#[tactic(auto, unfolding(crate::specs::Hosts::is_hash))]
fn digest_fits(
    alloc: Global,
    salt: &[u8],
    digest: &[u8],
    lowered_host: &[u8],
) -> Result<bool, AllocError>
    ensures { IfOk result (λ fits. fits ≡ is_hash salt.now digest.now lowered_host.now) }
{
    let Some(salt) = decoded(alloc, salt)? else {
        return Ok(false);
    };
    let Some(digest) = decoded(alloc, digest)? else {
        return Ok(false);
    };
    Ok(digest.as_slice() == hmac_sha1(&salt, lowered_host).as_slice())
}

/// Whether what follows `|1|` is the hash of the host in lower case.
#[tactic(auto, unfolding(crate::specs::Hosts::is_hashed))]
fn hashed_fits(alloc: Global, text: &[u8], lowered_host: &[u8]) -> Result<bool, AllocError>
    ensures { IfOk result (λ fits. fits ≡ is_hashed text.now lowered_host.now) }
{
    let mut parts = Parts::of(Mark::Bar, text);
    match (parts.next_part(), parts.next_part(), parts.next_part()) {
        (Some(salt), Some(digest), None) => digest_fits(alloc, salt, digest, lowered_host),
        _ => Ok(false),
    }
}

/// Whether the list of patterns takes in the host.
fn list_fits(host: &[u8], patterns: &[u8]) -> bool
    ensures { result ≡ is_in_list host.now patterns.now }
{
    list_matches(host, patterns)
}

/// Whether the host field takes in the host, which is given in lower case too.
#[tactic(auto, unfolding(crate::specs::Hosts::takes_in))]
pub fn field_fits(
    alloc: Global,
    field: &[u8],
    host: &[u8],
    lowered_host: &[u8],
) -> Result<bool, AllocError>
    requires { lowered_host.now ≡ lowered host.now }
    ensures { IfOk result (λ fits. fits ≡ takes_in field.now host.now) }
{
    match field.strip_prefix(HASHED) {
        Some(text) => hashed_fits(alloc, text, lowered_host),
        None => Ok(list_fits(host, field)),
    }
}

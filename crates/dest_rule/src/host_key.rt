//! One host key against one hop.

ghost use Rattle.std.specs.Prelude.{◌≡◌, false, not, ◌&&◌, is_ok, Ok, MatchOption, IfSome};
ghost use Rattle.std.specs.List.{list_any};
ghost use Rattle.std.specs.Str.{bytes_eq};
ghost use Rattle.std.specs.Option.{option_map};
ghost use Rattle.key_blob.specs.PublicKeys.{parts_of, public_key_of};
ghost use Rattle.dest_rule.specs.Rules.{fits_hop, is_hop, leaves};
ghost use Rattle.dest_rule.specs.HostKeys.{IsRead};

use constraint_rec::Hop;
use key_blob::{PublicKey, read_public, valid_for};

/// A host key that was read, so that it is read once however many hops it is held against.
#[derive(Clone, Copy)]
pub struct HostKey<'a> {
    pub blob: &'a [u8],
    pub key: PublicKey<'a>,
}

/// Reads a host key.
pub fn read_host_key(blob: &[u8]) -> Option<HostKey<'_>>
    ensures { MatchOption result (is_ok (public_key_of blob.now) ≡ false)
        (λ host. IsRead host × (host.blob.now ≡ blob.now)) }
{
    match read_public(blob) {
        Ok(key) => Some(HostKey { blob, key }),
        Err(_) => None,
    }
}

/// Whether the hop's host has this key.
fn has_key(hop: &Hop, blob: &[u8]) -> bool
    ensures { result ≡ list_any (λ key. not key.authority && bytes_eq key.blob blob.now) hop.now.keys }
{
    hop.keys
        .as_slice()
        .iter()
        .any(|key| !key.authority && key.blob.as_slice() == blob)
}

/// Whether this is an authority for the hop's host.
fn has_authority(hop: &Hop, blob: &[u8]) -> bool
    ensures { result ≡ list_any (λ key. key.authority && bytes_eq key.blob blob.now) hop.now.keys }
{
    hop.keys
        .as_slice()
        .iter()
        .any(|key| key.authority && key.blob.as_slice() == blob)
}

/// Whether the host key is one of the hop's keys, or a certificate of one.
///
/// A certificate is judged once, however many of the keys are its authority's.
#[tactic(auto, using(crate::proofs::HopLemmas::any_certified))]
fn fits_hop(hop: &Hop, host: &HostKey<'_>, wall: u64) -> bool
    ensures { result ≡ fits_hop (Ok (parts_of host.now.key)) hop.now host.now.blob.now wall }
{
    match &host.key.certificate {
        None => has_key(hop, host.blob),
        Some(certificate) => {
            has_authority(hop, certificate.signer)
                && valid_for(certificate, hop.host.as_slice(), wall)
        }
    }
}

/// Whether the host key is that of the hop's host.
#[tactic(auto, unfolding(crate::specs::Rules::is_hop))]
pub fn is_hop(hop: &Hop, host: &HostKey<'_>, wall: u64) -> bool
    requires { IsRead host.now }
    ensures { result ≡ is_hop hop.now host.now.blob.now wall }
{
    fits_hop(hop, host, wall)
}

/// Whether the hop that is left is the agent's own host, or that of the previous host key.
pub fn leaves(hop: &Hop, previous: Option<&HostKey<'_>>, wall: u64) -> bool
    requires { IfSome previous (λ host. IsRead host.now) }
    ensures { result ≡ leaves hop.now (option_map (λ host. host.now.blob.now) previous.entry) wall }
{
    match previous {
        None => hop.keys.is_empty(),
        Some(host) => is_hop(hop, host, wall),
    }
}

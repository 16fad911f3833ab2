//! Clients by their ports, and keys by their blobs.

ghost use Rattle.std.specs.Prelude.{◌≡◌, IfOk, MatchOption, None, OnOk};
ghost use Rattle.std.specs.List.{find, position};
ghost use Rattle.lists.specs.Firsts.{IsFirst};
ghost use Rattle.lists.specs.Keyed.{has_key, remove_by};
ghost use Rattle.log_book.specs.Books.{change_peer, comment_of, find_peer, is_key, named, port_of, sends};
ghost use Rattle.log_book.specs.Peers.{put_at, raised_at};

use crate::asked::copied;
use crate::peer::Peer;
use plain_lists::Bytes;
use std::alloc::{AllocError, Global};

/// The blob of a key that was added, and its comment.
#[derive(Drop)]
pub struct NamedKey {
    pub blob: Bytes,
    pub comment: Bytes,
}

/// Where the client of this port stands.
#[tactic(auto, using(lists::proofs::FirstLemmas::is_place))]
pub fn place_of(peers: &[Peer], port: u64) -> Option<usize>
    ensures { MatchOption result (find_peer port peers.now ≡ None)
        (IsFirst (has_key port_of port) peers.now) }
{
    first_of(peers, port)
}

fn first_of(peers: &[Peer], port: u64) -> Option<usize>
    ensures { result ≡ position (has_key port_of port) peers.now }
{
    peers.iter().position(|one| one.port() == port)
}

/// The client of this port sent more. One that wasn't seen before is new.
pub fn send(
    alloc: Global,
    peers: &mut Vec<Peer>,
    wall: u64,
    port: u64,
    piece: &[u8],
) -> Result<(), AllocError>
    ensures { OnOk result (peers.new.items ≡ sends wall port piece.now peers.old.items) }
{
    match place_of(peers, port) {
        Some(place) => {
            let one = &mut peers[place];
            one.send(alloc, wall, piece)?;
            Ok(())
        }
        None => {
            let mut one = Peer::new(alloc, port);
            one.send(alloc, wall, piece)?;
            peers.push(one)?;
            Ok(())
        }
    }
}

/// The user is asked about the request of the client of this port.
#[tactic(auto, using(lists::proofs::FirstLemmas::changed_nowhere))]
pub fn raise(peers: &mut Vec<Peer>, port: u64)
    ensures { peers.new.items ≡ change_peer port raised_at peers.old.items }
{
    let Some(place) = place_of(peers, port) else {
        return;
    };
    let one = &mut peers[place];
    one.raise();
}

/// That request was put to the helper, when so many were lost.
#[tactic(auto, using(lists::proofs::FirstLemmas::changed_nowhere))]
pub fn put(peers: &mut Vec<Peer>, port: u64, faults: u64)
    ensures { peers.new.items ≡ change_peer port (put_at faults) peers.old.items }
{
    let Some(place) = place_of(peers, port) else {
        return;
    };
    let one = &mut peers[place];
    one.put(faults);
}

/// Takes the client of this port out.
#[tactic(auto, using(lists::proofs::FirstLemmas::removed_there, lists::proofs::FirstLemmas::found_there, lists::proofs::FirstLemmas::removed_nowhere))]
pub fn leave(peers: &mut Vec<Peer>, port: u64) -> Option<Peer>
    ensures left { peers.new.items ≡ remove_by port_of port peers.old.items }
    ensures found { result ≡ find_peer port peers.old.items }
{
    let place = place_of(peers, port)?;
    Some(peers.remove(place))
}

// Where the key of this blob stands.
#[tactic(auto, using(lists::proofs::FirstLemmas::is_place))]
fn place_of_key(keys: &[NamedKey], blob: &[u8]) -> Option<usize>
    ensures { MatchOption result (find (is_key blob.now) keys.now ≡ None)
        (IsFirst (is_key blob.now) keys.now) }
{
    first_of_key(keys, blob)
}

fn first_of_key(keys: &[NamedKey], blob: &[u8]) -> Option<usize>
    ensures { result ≡ position (is_key blob.now) keys.now }
{
    keys.iter().position(|key| key.blob.as_slice() == blob)
}

/// A copy of the comment of a key, where it was added.
#[tactic(auto, using(lists::proofs::FirstLemmas::found_there), unfolding(crate::specs::Books::comment_of))]
pub fn comment_of(
    alloc: Global,
    keys: &[NamedKey],
    blob: &[u8],
) -> Result<Option<Bytes>, AllocError>
    ensures { IfOk result (λ comment. comment ≡ comment_of blob.now keys.now) }
{
    let Some(place) = place_of_key(keys, blob) else {
        return Ok(None);
    };
    Ok(Some(copied(alloc, keys[place].comment.as_slice())?))
}

/// A key was added.
#[tactic(auto, using(lists::proofs::FirstLemmas::removed_there, lists::proofs::FirstLemmas::removed_nowhere), unfolding(crate::specs::Books::named))]
pub fn name(keys: &mut Vec<NamedKey>, blob: Bytes, comment: Bytes) -> Result<(), AllocError>
    ensures { OnOk result (keys.new.items ≡ named blob comment keys.old.items) }
{
    if let Some(place) = place_of_key(keys, blob.as_slice()) {
        keys.remove(place);
    }
    keys.push(NamedKey { blob, comment })?;
    Ok(())
}

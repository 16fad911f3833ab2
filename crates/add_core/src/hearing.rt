//! Reads of the agent's replies: four bytes of length, then as many bytes of body.

ghost use Rattle.std.specs.Prelude.{◌≡◌, ◌≢◌, ◌⊎◌, ◌<◌, ◌≤◌, ℕ, List, Some, None, Err, IfOk, MatchOption, MatchResult, length};
ghost use Rattle.add_core.specs.Hearing.{Announces, PullsNothing, PullsPiece, TakesFirst, TakesReply, answer_at};
ghost use Rattle.wire_text.specs.Bounds.{longest_body};
ghost use Rattle.wire_text.specs.Wire.{announced_len};
ghost use Rattle.world_ports.specs.Causes.{Rose};
ghost use Rattle.world_ports.specs.Streams.{OnlyReads};

use crate::fault::PeerStop;
use frame_core::LONGEST_BODY;
use std::alloc::Global;
use world_ports::{Pulled, Source};

/// How many bytes a read brings at most.
const PIECE: usize = 4096;

/// Reads once, at most so many bytes. `None` where the source has ended.
fn pull<S: Source>(alloc: Global, source: &mut S, most: usize) -> Result<Option<Vec<u8>>, PeerStop>
    requires { 0 < most }
    ensures pulls { IfOk result (λ pulled. MatchOption pulled
        (PullsNothing (S.seen source.old) (S.seen source.new))
        (λ piece. PullsPiece most piece.items (S.seen source.old) (S.seen source.new))) }
    ensures stop { result ≢ Err PeerStop.BadReply }
    ensures cause { result ≡ Err PeerStop.Failed
        → Rose (S.seen source.old).read_faults (S.seen source.new).read_faults }
    ensures only { OnlyReads (S.seen source.old) (S.seen source.new) }
{
    let mut room = vec![in alloc; 0u8; most]?;
    match source.read(room.as_mut_slice())? {
        Pulled::Bytes(n) => {
            room.truncate(n as usize);
            Ok(Some(room))
        }
        Pulled::End => Ok(None),
    }
}

/// Reads so many bytes, and no more.
fn read_first<S: Source>(alloc: Global, source: &mut S, count: usize) -> Result<Vec<u8>, PeerStop>
    ensures len { IfOk result (λ bytes. length bytes.items ≡ count) }
    ensures first { (replies : List ℕ) → (S.seen source.old).left ≡ Some replies
        → MatchResult result (λ bytes. TakesFirst count replies bytes.items (S.seen source.new))
        (λ stop. stop ≡ PeerStop.BadReply → length replies < count) }
    ensures cause { result ≡ Err PeerStop.Failed
        → Rose (S.seen source.old).read_faults (S.seen source.new).read_faults }
    ensures only { OnlyReads (S.seen source.old) (S.seen source.new) }
{
    let mut bytes = Vec::new(alloc);
    'pieces: while bytes.len() < count {
        let Some(piece) = pull(alloc, source, (count - bytes.len()).min(PIECE))? else {
            return Err(PeerStop::BadReply);
        };
        bytes.extend_from_slice(&piece)?;
    }
    Ok(bytes)
}

/// The length that the four bytes announce, where a reply may have it.
#[tactic(auto, unfolding(wire_text::specs::Wire::announced_len))]
fn announced(header: &[u8]) -> Option<usize>
    requires { length header.now ≡ 4 }
    ensures { MatchOption result
        ((announced_len header.now ≡ 0) ⊎ (longest_body < announced_len header.now))
        (Announces header.now) }
{
    let (header, _) = header.split_first_chunk::<4>()?;
    let announced = u32::from_be_bytes(*header);
    if announced == 0 || announced > LONGEST_BODY {
        return None;
    }
    Some(announced as usize)
}

/// Reads the body of the next reply.
pub fn take_reply<S: Source>(alloc: Global, source: &mut S) -> Result<Vec<u8>, PeerStop>
    ensures reply { (replies : List ℕ) → (S.seen source.old).left ≡ Some replies
        → MatchResult result (λ body. TakesReply replies body.items (S.seen source.new))
        (λ stop. stop ≡ PeerStop.BadReply → answer_at replies ≡ None) }
    ensures cause { result ≡ Err PeerStop.Failed
        → Rose (S.seen source.old).read_faults (S.seen source.new).read_faults }
    ensures only { OnlyReads (S.seen source.old) (S.seen source.new) }
{
    let header = read_first(alloc, source, 4)?;
    let Some(count) = announced(&header) else {
        return Err(PeerStop::BadReply);
    };
    read_first(alloc, source, count)
}

//! The helper's loop: it reads the agent's frames and answers them in order, wiping what it read.

ghost use Rattle.std.specs.Prelude.{◌≡◌, [], List, ℕ, IfNone, MatchOption};
ghost use Rattle.standin_core.specs.Claims.{Ends};
ghost use Rattle.standin_core.specs.Hosts.{Host, ArePairs};
ghost use Rattle.standin_core.specs.Serving.{IsUnderWay};
ghost use Rattle.standin_core.specs.Transcript.{Transcript};
ghost use Rattle.wire_text.specs.Bounds.{longest_to_child};
ghost use Rattle.wire_text.specs.Frames.{Whole, More, front};
ghost use Rattle.world_ports.specs.Streams.{StreamView};

use crate::answer::put_answer;
use crate::status::HelperStatus;
use child_msg::LONGEST_TO_CHILD;
use child_peer::{HearFault, Room, flush};
use frame_core::{Look, front_body, look};
use secret_buf::ScrubBuf;
use std::alloc::Global;
use std::sync::Wait;
use world_ports::{Pulled, Sink, Source};

// Answers the frame in front, whose bytes are wiped before the answer is sent.
fn answer_front<P: Sink>(
    pairs: &[u8],
    body_len: u32,
    heard: &mut ScrubBuf,
    out: &mut ScrubBuf,
    peer: &mut P,
) -> Option<HelperStatus>
    requires found { front longest_to_child heard.old.live ≡ Whole body_len }
    requires empty { out.old.live ≡ [] }
    ensures empty { IfNone result (out.new.live ≡ []) }
    ensures talk { (hosts : List Host) (whole : List ℕ → Transcript) (start : StreamView)
        → ArePairs pairs.now hosts → IsUnderWay hosts whole start (P.seen peer.old) heard.old.live
        → MatchOption result
        (IsUnderWay hosts whole start (P.seen peer.new) heard.new.live)
        (λ status. Ends status whole start (P.seen peer.new)) }
{
    let Ok(is_request) = put_answer(pairs, front_body(heard.live(), body_len), out) else {
        return Some(HelperStatus::Memory);
    };
    if !is_request {
        return Some(HelperStatus::BadFrame);
    }
    heard.consume(4 + body_len as usize);
    match flush(out, peer) {
        Ok(()) => None,
        Err(_) => Some(HelperStatus::WriteFault),
    }
}

// Reads once, where no whole frame is in front.
fn hear_more<P: Source>(room: &mut Room, heard: &mut ScrubBuf, peer: &mut P) -> Option<HelperStatus>
    requires { front longest_to_child heard.old.live ≡ More }
    ensures { (hosts : List Host) (whole : List ℕ → Transcript) (start : StreamView)
        → IsUnderWay hosts whole start (P.seen peer.old) heard.old.live
        → MatchOption result
        (IsUnderWay hosts whole start (P.seen peer.new) heard.new.live)
        (λ status. Ends status whole start (P.seen peer.new)) }
{
    match room.hear(peer, heard) {
        Ok(Pulled::Bytes(_)) => None,
        Ok(Pulled::End) if heard.live().is_empty() => Some(HelperStatus::Done),
        Ok(Pulled::End) => Some(HelperStatus::TornEnd),
        Err(HearFault::Failed) => Some(HelperStatus::ReadFault),
        Err(HearFault::Memory) => Some(HelperStatus::Memory),
    }
}

// Answers the frame in front, or reads once.
fn serve_once<P: Source + Sink>(
    pairs: &[u8],
    room: &mut Room,
    heard: &mut ScrubBuf,
    out: &mut ScrubBuf,
    peer: &mut P,
) -> Option<HelperStatus>
    requires { out.old.live ≡ [] }
    ensures empty { IfNone result (out.new.live ≡ []) }
    ensures talk { (hosts : List Host) (whole : List ℕ → Transcript) (start : StreamView)
        → ArePairs pairs.now hosts → IsUnderWay hosts whole start (P.seen peer.old) heard.old.live
        → MatchOption result
        (IsUnderWay hosts whole start (P.seen peer.new) heard.new.live)
        (λ status. Ends status whole start (P.seen peer.new)) }
{
    match look(heard.live(), LONGEST_TO_CHILD) {
        Look::Whole { body } => answer_front(pairs, body, heard, out, peer),
        Look::Bad { .. } => Some(HelperStatus::BadFrame),
        Look::More => hear_more(room, heard, peer),
    }
}

/// Answers the agent's requests until it ends.
pub fn serve<R: Wait, P: Source + Sink>(
    rt: &R,
    alloc: Global,
    pairs: &[u8],
    peer: &mut P,
) -> HelperStatus
    ensures { (hosts : List Host) (whole : List ℕ → Transcript) (start : StreamView)
        → ArePairs pairs.now hosts → IsUnderWay hosts whole start (P.seen peer.old) []
        → Ends result whole start (P.seen peer.new) }
{
    let Ok(mut room) = Room::new(alloc) else {
        return HelperStatus::Memory;
    };
    let mut heard = ScrubBuf::new(alloc);
    let mut out = ScrubBuf::new(alloc);
    'frames: for _ in rt.forever() {
        if let Some(status) = serve_once(pairs, &mut room, &mut heard, &mut out, peer) {
            return status;
        }
    }
    unreachable!()
}

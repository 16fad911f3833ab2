//! The agent's stream, whose frames are answered one after another until it ends.

ghost use Rattle.std.specs.Prelude.{◌≡◌, [], List, ℕ, Option, IfNone, MatchOption};
ghost use Rattle.helper_core.specs.Routes.{Route};
ghost use Rattle.helper_core.specs.declared.behind.Exchange.{Exchange};
ghost use Rattle.helper_core.specs.Claims.{Ends, Seen, Talk};
ghost use Rattle.helper_core.specs.Serving.{IsUnderWay, Puts};
ghost use Rattle.wire_text.specs.Bounds.{longest_to_child};
ghost use Rattle.wire_text.specs.Frames.{Whole, More, front};

use crate::answerer::{Answerer, Routed};
use crate::behind::HelperBehind;
use crate::reply::hand_on;
use crate::status::HelperStatus;
use child_msg::LONGEST_TO_CHILD;
use child_peer::{HearFault, Room, flush};
use frame_core::{Look, front_body, look};
use secret_buf::ScrubBuf;
use std::alloc::{AllocError, Global};
use std::sync::Wait;
use world_ports::{Pulled, Sink, Source};

// Appends the frame of the answer to a body, and says whether the body is a request to a helper.
fn put_answer<A: Answerer, B: HelperBehind>(
    alloc: Global,
    answerer: &A,
    behind: &mut B,
    body: &[u8],
    out: &mut ScrubBuf,
) -> Result<bool, AllocError>
    ensures { Puts result (A.route answerer.now body.now) body.now
        (B.seen behind.old) (B.seen behind.new) out.old.live out.new.live }
{
    match answerer.answer(body, out)? {
        Routed::Answered => Ok(true),
        Routed::HandedOn(asked) => {
            hand_on(alloc, asked, body, behind, out)?;
            Ok(true)
        }
        Routed::NoRequest => Ok(false),
    }
}

// Answers the frame in front, whose bytes are wiped before the answer is sent.
fn answer_front<A: Answerer, B: HelperBehind, P: Sink>(
    alloc: Global,
    answerer: &A,
    behind: &mut B,
    body_len: u32,
    heard: &mut ScrubBuf,
    out: &mut ScrubBuf,
    peer: &mut P,
) -> Option<HelperStatus>
    requires found { front longest_to_child heard.old.live ≡ Whole body_len }
    requires empty { out.old.live ≡ [] }
    ensures empty { IfNone result (out.new.live ≡ []) }
    ensures talk { (talk : Talk) (start : Seen)
        → IsUnderWay (A.route answerer.now) talk start
        (record { behind = B.seen behind.old; peer = P.seen peer.old }) heard.old.live
        → MatchOption result
        (IsUnderWay (A.route answerer.now) talk start
        (record { behind = B.seen behind.new; peer = P.seen peer.new }) heard.new.live)
        (λ status. Ends status talk start
        (record { behind = B.seen behind.new; peer = P.seen peer.new })) }
{
    let Ok(is_request) = put_answer(
        alloc,
        answerer,
        behind,
        front_body(heard.live(), body_len),
        out,
    ) else {
        return Some(HelperStatus::Memory);
    };
    if !is_request {
        return Some(HelperStatus::BadFrame);
    }
    heard.consume(4 + body_len as usize);
    match flush(out, peer) {
        Ok(()) => None,
        Err(_) => Some(HelperStatus::WriteFault),
    }
}

// Reads once, where no whole frame is in front.
fn hear_more<P: Source>(room: &mut Room, heard: &mut ScrubBuf, peer: &mut P) -> Option<HelperStatus>
    requires { front longest_to_child heard.old.live ≡ More }
    ensures { (route : List ℕ → Route) (talk : Talk) (start : Seen) (behind : Option (List Exchange))
        → IsUnderWay route talk start
        (record { behind = behind; peer = P.seen peer.old }) heard.old.live
        → MatchOption result
        (IsUnderWay route talk start
        (record { behind = behind; peer = P.seen peer.new }) heard.new.live)
        (λ status. Ends status talk start
        (record { behind = behind; peer = P.seen peer.new })) }
{
    match room.hear(peer, heard) {
        Ok(Pulled::Bytes(_)) => None,
        Ok(Pulled::End) if heard.live().is_empty() => Some(HelperStatus::Done),
        Ok(Pulled::End) => Some(HelperStatus::TornEnd),
        Err(HearFault::Failed) => Some(HelperStatus::ReadFault),
        Err(HearFault::Memory) => Some(HelperStatus::Memory),
    }
}

// Answers the frame in front, or reads once.
fn serve_once<A: Answerer, B: HelperBehind, P: Source + Sink>(
    alloc: Global,
    answerer: &A,
    behind: &mut B,
    room: &mut Room,
    heard: &mut ScrubBuf,
    out: &mut ScrubBuf,
    peer: &mut P,
) -> Option<HelperStatus>
    requires { out.old.live ≡ [] }
    ensures empty { IfNone result (out.new.live ≡ []) }
    ensures talk { (talk : Talk) (start : Seen)
        → IsUnderWay (A.route answerer.now) talk start
        (record { behind = B.seen behind.old; peer = P.seen peer.old }) heard.old.live
        → MatchOption result
        (IsUnderWay (A.route answerer.now) talk start
        (record { behind = B.seen behind.new; peer = P.seen peer.new }) heard.new.live)
        (λ status. Ends status talk start
        (record { behind = B.seen behind.new; peer = P.seen peer.new })) }
{
    match look(heard.live(), LONGEST_TO_CHILD) {
        Look::Whole { body } => answer_front(alloc, answerer, behind, body, heard, out, peer),
        Look::Bad { .. } => Some(HelperStatus::BadFrame),
        Look::More => hear_more(room, heard, peer),
    }
}

/// Answers the agent's requests until it ends.
pub fn serve<R: Wait, A: Answerer, B: HelperBehind, P: Source + Sink>(
    rt: &R,
    alloc: Global,
    answerer: &A,
    behind: &mut B,
    peer: &mut P,
) -> HelperStatus
    ensures { (talk : Talk) (start : Seen)
        → IsUnderWay (A.route answerer.now) talk start
        (record { behind = B.seen behind.old; peer = P.seen peer.old }) []
        → Ends result talk start (record { behind = B.seen behind.new; peer = P.seen peer.new }) }
{
    let Ok(mut room) = Room::new(alloc) else {
        return HelperStatus::Memory;
    };
    let mut heard = ScrubBuf::new(alloc);
    let mut out = ScrubBuf::new(alloc);
    'frames: for _ in rt.forever() {
        if let Some(status) = serve_once(
            alloc, answerer, behind, &mut room, &mut heard, &mut out, peer,
        ) {
            return status;
        }
    }
    unreachable!()
}

//! The relay: a request of the client, what it becomes to the agent, the agent's reply to the client.

ghost use Rattle.std.specs.Prelude.{◌≡◌, ◌≤◌, [], List, ℕ, length, MatchOption, MatchResult};
ghost use Rattle.terms_core.specs.Claims.{Ends};
ghost use Rattle.terms_core.specs.Relays.{Both, IsRelayed};
ghost use Rattle.terms_core.specs.Stops.{reply_status, request_status, refused_status};
ghost use Rattle.wire_text.specs.Bounds.{longest_body};
ghost use Rattle.wire_text.specs.Frames.{Whole, front};
ghost use Rattle.world_ports.specs.Streams.{StreamView};

use crate::addition::put_request;
use crate::fault::{BodyFault, HearStop};
use crate::hearing::hear_frame;
use crate::status::TermsStatus;
use child_peer::{Room, flush};
use frame_core::{front_body, put_frame};
use secret_buf::ScrubBuf;
use std::alloc::Global;
use std::sync::Wait;
use world_ports::{Sink, Source};

/// Passes the client's requests on until it ends, each with the terms where it adds a key, and gives back
/// the agent's replies. What each status says is in specs/Claims.antt.
pub fn relay<R: Wait, C: Source + Sink, A: Source + Sink>(
    rt: &R,
    alloc: Global,
    terms: &[u8],
    client: &mut C,
    agent: &mut A,
) -> TermsStatus
    requires { length terms.now ≤ longest_body }
    ensures { Ends result terms.now
        (record { client = C.seen client.old; agent = A.seen agent.old })
        (record { client = C.seen client.new; agent = A.seen agent.new }) }
{
    let Ok(mut room) = Room::new(alloc) else {
        return TermsStatus::Memory;
    };
    let mut asked = ScrubBuf::new(alloc);
    let mut replied = ScrubBuf::new(alloc);
    'requests: for _ in rt.forever() {
        match pass_on(alloc, terms, &mut room, &mut asked, client, agent) {
            Ok(()) => {}
            Err(status) => return status,
        }
        match give_back(alloc, &mut room, &mut replied, client, agent) {
            Ok(()) => {}
            Err(status) => return status,
        }
    }
    unreachable!()
}

// Reads the client's next request, and sends the agent what it becomes.
fn pass_on<C: Source, A: Sink>(
    alloc: Global,
    terms: &[u8],
    room: &mut Room,
    asked: &mut ScrubBuf,
    client: &mut C,
    agent: &mut A,
) -> Result<(), TermsStatus>
    requires { length terms.now ≤ longest_body }
    ensures { (start : Both) (replied : List ℕ)
        → IsRelayed terms.now 0 asked.old.live replied start
        (record { client = C.seen client.old; agent = A.seen agent.old })
        → MatchResult result
        (λ _. IsRelayed terms.now 1 asked.new.live replied start
        (record { client = C.seen client.new; agent = A.seen agent.new }))
        (λ status. Ends status terms.now start
        (record { client = C.seen client.new; agent = A.seen agent.new })) }
{
    match hear_frame(room, asked, client) {
        Ok(body_len) => send(alloc, terms, body_len, asked, agent),
        Err(stop) => Err(request_status(stop)),
    }
}

// Sends the agent what the request in front becomes, whose bytes are wiped before.
fn send<A: Sink>(
    alloc: Global,
    terms: &[u8],
    body_len: u32,
    asked: &mut ScrubBuf,
    agent: &mut A,
) -> Result<(), TermsStatus>
    requires terms { length terms.now ≤ longest_body }
    requires found { front longest_body asked.old.live ≡ Whole body_len }
    ensures { (start : Both) (replied : List ℕ) (client : StreamView)
        → IsRelayed terms.now 0 asked.old.live replied start
        (record { client = client; agent = A.seen agent.old })
        → MatchResult result
        (λ _. IsRelayed terms.now 1 asked.new.live replied start
        (record { client = client; agent = A.seen agent.new }))
        (λ status. Ends status terms.now start
        (record { client = client; agent = A.seen agent.new })) }
{
    let mut out = ScrubBuf::new(alloc);
    match put_request(alloc, &mut out, terms, front_body(asked.live(), body_len)) {
        Ok(()) => {}
        Err(fault) => return Err(refused_status(fault)),
    }
    asked.consume(4 + body_len as usize);
    match flush(&mut out, agent) {
        Ok(()) => Ok(()),
        Err(_) => Err(TermsStatus::WriteFault),
    }
}

// Reads the agent's next reply, and gives it to the client.
fn give_back<C: Sink, A: Source>(
    alloc: Global,
    room: &mut Room,
    replied: &mut ScrubBuf,
    client: &mut C,
    agent: &mut A,
) -> Result<(), TermsStatus>
    ensures { (start : Both) (terms asked : List ℕ)
        → IsRelayed terms 1 asked replied.old.live start
        (record { client = C.seen client.old; agent = A.seen agent.old })
        → MatchResult result
        (λ _. IsRelayed terms 0 asked replied.new.live start
        (record { client = C.seen client.new; agent = A.seen agent.new }))
        (λ status. Ends status terms start
        (record { client = C.seen client.new; agent = A.seen agent.new })) }
{
    match hear_frame(room, replied, agent) {
        Ok(body_len) => give(alloc, body_len, replied, client),
        Err(stop) => Err(reply_status(stop)),
    }
}

// Gives the client the reply in front, whose bytes are wiped before.
fn give<C: Sink>(
    alloc: Global,
    body_len: u32,
    replied: &mut ScrubBuf,
    client: &mut C,
) -> Result<(), TermsStatus>
    requires { front longest_body replied.old.live ≡ Whole body_len }
    ensures { (start : Both) (terms asked : List ℕ) (agent : StreamView)
        → IsRelayed terms 1 asked replied.old.live start
        (record { client = C.seen client.old; agent = agent })
        → MatchResult result
        (λ _. IsRelayed terms 0 asked replied.new.live start
        (record { client = C.seen client.new; agent = agent }))
        (λ status. Ends status terms start
        (record { client = C.seen client.new; agent = agent })) }
{
    let mut out = ScrubBuf::new(alloc);
    match put_frame(&mut out, front_body(replied.live(), body_len)) {
        Ok(()) => {}
        Err(_) => return Err(TermsStatus::Memory),
    }
    replied.consume(4 + body_len as usize);
    match flush(&mut out, client) {
        Ok(()) => Ok(()),
        Err(_) => Err(TermsStatus::WriteFault),
    }
}

// How a relay ends where no whole request comes.
fn request_status(stop: HearStop) -> TermsStatus
    ensures { result ≡ request_status stop }
{
    match stop {
        HearStop::Bad => TermsStatus::BadRequest,
        HearStop::End => TermsStatus::Done,
        HearStop::Torn => TermsStatus::TornEnd,
        HearStop::Failed => TermsStatus::ReadFault,
        HearStop::Memory => TermsStatus::Memory,
    }
}

// How a relay ends where no whole reply comes.
fn reply_status(stop: HearStop) -> TermsStatus
    ensures { result ≡ reply_status stop }
{
    match stop {
        HearStop::Bad => TermsStatus::BadReply,
        HearStop::End | HearStop::Torn => TermsStatus::LostAgent,
        HearStop::Failed => TermsStatus::ReadFault,
        HearStop::Memory => TermsStatus::Memory,
    }
}

// How a relay ends at a request that isn't passed on.
fn refused_status(fault: BodyFault) -> TermsStatus
    ensures { result ≡ refused_status fault }
{
    match fault {
        BodyFault::TooLong => TermsStatus::TooLong,
        BodyFault::Twice => TermsStatus::Twice,
        BodyFault::Memory => TermsStatus::Memory,
    }
}

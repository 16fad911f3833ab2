//! One open port.

ghost use Rattle.std.specs.Prelude.{◌≡◌, ◌+◌, ◌≤◌, ◌||◌, [], true, None, Some, IfOk, OnOk, length};
ghost use Rattle.wire_text.specs.Frames.{after_front, front, front_body, More, Whole};
ghost use Rattle.frame_core.specs.Looks.{front_of};
ghost use Rattle.agent_model.specs.Answers.{chain_with, prove};
ghost use Rattle.agent_model.specs.Children.{heard_more, unheard};
ghost use Rattle.wire_text.specs.Bounds.{longest_body};
ghost use Rattle.agent_model.specs.Looks.{due};
ghost use Rattle.agent_model.specs.State.{is_settled, wants_by};
ghost use Rattle.agent_model.specs.Step.{attempts, take_frame, took_some};
ghost use Rattle.confirm_desk.specs.Confirmations.{find_asker};
ghost use Rattle.agent_model.specs.Verdicts.{Verdict, tell};
ghost use Rattle.under_way.specs.Parts.{TellsOf};
ghost use Rattle.agent_core.specs.Served.{served_at};
ghost use Rattle.agent_core.specs.Settlings.{IsShortAnswer, verdict_of};
ghost use Rattle.agent_model.specs.Sound.{IsRight};
ghost use Rattle.agent_core.specs.Slots.{port_of, waits_of};
ghost use Rattle.under_way.specs.Verifications.{verification_of};

use crate::asker::Asker;
use crate::keys::Keys;
use crate::owed::Owed;
use crate::waits::Waits;
use dest_rule::Chain;
use frame_core::{LONGEST_BODY, Look, front_body, look};
use helper_link::Answer;
use secret_buf::ScrubBuf;
use std::alloc::AllocError;
use std::mem;
use under_way::{UnderWay, Verification};
use world_ports::Door;

/// The storage of a request with a longer body isn't kept for the next one, in bytes.
const LONG: u32 = 4096;

/// An open port. It has no `Drop`, so each is to be closed.
pub struct Slot {
    pub number: u64,
    pub door: Door,
    pub heard: ScrubBuf,
    /// What a client is owed. A child process is owed nothing here.
    pub owed: Owed,
    /// The hosts that a client's connection was bound to.
    pub chain: Chain,
    pub waits: Waits,
}

impl Slot {
    /// Wipes what was heard of it and what it is owed.
    pub fn close(self) {
        let Slot {
            number: _,
            door: _,
            heard: _,
            owed: _,
            chain: _,
            waits: _,
        } = self;
    }
}

/// Appends the piece to what was heard, and tells what is to be taken then.
pub fn push(slot: &mut Slot, piece: &[u8]) -> Result<Look, AllocError>
    ensures port { OnOk result (port_of slot.new ≡ heard_more piece.now (port_of slot.old)) }
    ensures front { IfOk result (λ look. front_of look ≡ due (port_of slot.new)) }
    ensures number { slot.new.number ≡ slot.old.number }
    ensures door { slot.new.door ≡ slot.old.door }
    ensures owed { slot.new.owed ≡ slot.old.owed }
{
    slot.heard.push_slice(piece)?;
    Ok(due(slot))
}

/// Drops the first `count` bytes that are owed, all where fewer are, and tells what is to be taken then.
pub fn drop_sent(slot: &mut Slot, count: usize) -> Look
    ensures port { port_of slot.new ≡ took_some count (port_of slot.old) }
    ensures front { front_of result ≡ due (port_of slot.new) }
    ensures number { slot.new.number ≡ slot.old.number }
    ensures door { slot.new.door ≡ slot.old.door }
{
    slot.owed.consume(count.min(slot.owed.bytes().len()));
    due(slot)
}

// What is to be taken of a client: nothing while it waits or bytes are owed.
fn due(slot: &Slot) -> Look
    ensures { front_of result ≡ due (port_of slot.now) }
{
    match slot.waits {
        Waits::Nothing if slot.owed.bytes().is_empty() => look(slot.heard.live(), LONGEST_BODY),
        _ => Look::More,
    }
}

/// Whether it is to be read: a client until a request of it is whole, and while it waits or is owed bytes only as long
/// as nothing of its next request has come; a child process always.
#[inline(always)]
pub fn wants(slot: &Slot) -> bool
    ensures { result ≡ wants_by (Some (port_of slot.now)) }
{
    let heard = slot.heard.live();
    if heard.is_empty() {
        return true;
    }
    match slot.door {
        Door::Clients => is_settled(slot) && matches!(look(heard, LONGEST_BODY), Look::More),
        Door::Children => true,
    }
}

// Whether a client waits for no answer and has taken every reply.
fn is_settled(slot: &Slot) -> bool
    ensures { result ≡ is_settled (waits_of slot.now.waits) slot.now.owed }
{
    match slot.waits {
        Waits::Nothing => slot.owed.bytes().is_empty(),
        _ => false,
    }
}

/// Takes out what was heard.
pub fn take_heard(slot: &mut Slot) -> ScrubBuf
    ensures port { port_of slot.new ≡ unheard (port_of slot.old) }
    ensures heard { result.live ≡ slot.old.heard.live }
    ensures number { slot.new.number ≡ slot.old.number }
    ensures door { slot.new.door ≡ slot.old.door }
    ensures owed { slot.new.owed ≡ slot.old.owed }
{
    let nothing = ScrubBuf::new(slot.owed.allocator());
    mem::replace(&mut slot.heard, nothing)
}

/// Takes the request with a body of this length, and owes its reply or lets the client wait.
pub fn serve(
    slot: &mut Slot,
    keys: &mut Keys,
    under_way: &mut UnderWay,
    wall: u64,
    body_len: u32,
) -> Result<(), AllocError>
    requires due { due (port_of slot.old) ≡ Whole body_len }
    requires alone { find_asker slot.old.number under_way.old.confirmations ≡ None }

    ensures port { OnOk result (port_of slot.new ≡ tell
        (served_at body_len wall (port_of slot.old) keys.old under_way.old).work.verdict
        (take_frame body_len (attempts keys.old.lock (front_body body_len slot.old.heard.live)) (port_of slot.old))) }
    ensures keys { OnOk result (keys.new ≡ (served_at body_len wall (port_of slot.old) keys.old under_way.old).held) }
    ensures under_way { OnOk result
        (under_way.new ≡ (served_at body_len wall (port_of slot.old) keys.old under_way.old).work.under_way) }
    ensures number { slot.new.number ≡ slot.old.number }
    ensures door { slot.new.door ≡ slot.old.door }
{
    let asker = Asker {
        port: slot.number,
        chain: &slot.chain,
        wall,
    };
    let body = first_body(slot.heard.live(), body_len);
    let is_attempt = keys.is_attempt(body);
    slot.waits = keys.serve(under_way, &asker, body, &mut slot.owed)?;
    mark(&mut slot.chain, is_attempt);
    drop_frame(&mut slot.heard, body_len);
    Ok(())
}

// Marks the chain of a connection that tried to bind itself.
fn mark(chain: &mut Chain, is_attempt: bool)
    ensures { chain.new ≡ record chain.old { attempted = chain.old.attempted || is_attempt } }
{
    if is_attempt {
        chain.attempt();
    }
}

/// The binding of an asker's connection was verified: it is added where it is new, and the asker is told so.
pub fn prove(slot: &mut Slot, verification: &Verification) -> Result<(), AllocError>
    requires { IsRight (verification_of verification.now) slot.old.chain.bindings }
    ensures port { OnOk result (port_of slot.new ≡ prove (verification_of verification.now) (port_of slot.old)) }
    ensures number { slot.new.number ≡ slot.old.number }
    ensures door { slot.new.door ≡ slot.old.door }
{
    if verification.is_new {
        bind(&mut slot.chain, verification)?;
    }
    slot.owed.append_status(true)?;
    slot.waits = Waits::Nothing;
    Ok(())
}

// Adds a verified binding, which is new to the chain.
fn bind(chain: &mut Chain, verification: &Verification) -> Result<(), AllocError>
    requires right { IsRight (verification_of verification.now) chain.old.bindings }
    requires new { verification.now.is_new ≡ true }
    ensures { OnOk result (chain.new ≡ record chain.old {
      bindings = chain_with verification.now.is_new (verification_of verification.now).binding chain.old.bindings;
    }) }
{
    chain.bind(
        verification.host_key.as_slice(),
        verification.session.as_slice(),
        verification.forwarding,
    )?;
    Ok(())
}

/// Owes what the helper answered, which binds nothing, behind what is owed, and waits no more.
pub fn tell(slot: &mut Slot, answer: &Answer) -> Result<(), AllocError>
    requires { IsShortAnswer answer.now }
    ensures port { OnOk result (port_of slot.new ≡ tell (verdict_of answer.now) (port_of slot.old)) }
    ensures number { slot.new.number ≡ slot.old.number }
    ensures door { slot.new.door ≡ slot.old.door }
{
    match answer {
        Answer::Signed(signature) => slot.owed.append_signature(signature.as_slice())?,
        // What is right binds nothing here: `prove` tells of that.
        Answer::Refused | Answer::True | Answer::False => slot.owed.append_status(false)?,
    }
    slot.waits = Waits::Nothing;
    Ok(())
}

/// The body of the whole frame at the front.
#[tactic(auto, using(wire_text::proofs::FrontLemmas::whole_within, wire_text::proofs::FrontLemmas::body_within))]
pub fn first_body(heard: &[u8], body_len: u32) -> &[u8]
    requires { front longest_body heard.now ≡ Whole body_len }
    ensures body { result.now ≡ front_body body_len heard.now }
    ensures short { length result.now ≤ longest_body }
    ensures within { 4 + body_len ≤ length heard.now }
{
    front_body(heard, body_len)
}

// Drops the frame at the front, and with the last byte the storage that a long one took.
fn drop_frame(heard: &mut ScrubBuf, body_len: u32)
    requires { 4 + body_len ≤ length heard.old.live }
    ensures { heard.new.live ≡ after_front body_len heard.old.live }
{
    heard.consume(4 + body_len as usize);
    if body_len > LONG && heard.live().is_empty() {
        heard.wipe();
    }
}

/// Waits for the ask of this number, or owes a failure where there is none, and waits no more. Takes no memory.
pub fn conclude(slot: &mut Slot, asked: Option<u64>)
    requires { slot.old.owed ≡ [] }
    ensures port { (verdict : Verdict) → TellsOf verdict asked
        → port_of slot.new ≡ tell verdict (port_of slot.old) }
    ensures number { slot.new.number ≡ slot.old.number }
    ensures door { slot.new.door ≡ slot.old.door }
{
    match asked {
        Some(ask) => slot.waits = Waits::OnAsk { ask },
        None => {
            slot.owed.put_status(false);
            slot.waits = Waits::Nothing;
        }
    }
}

//! One open pair.

ghost use Rattle.std.specs.Prelude.{◌≡◌, ◌≤◌, ◌&&◌, IfOk, OnOk, length, is_some, true};
ghost use Rattle.wire_text.specs.Bounds.{longest_body};
ghost use Rattle.wire_text.specs.Frames.{Whole, front, front_body};
ghost use Rattle.agent_msg.specs.ReplyReading.{reply_of};
ghost use Rattle.filter_model.specs.declared.waits.Waits.TheVariants as waiting;
ghost use Rattle.filter_model.specs.Pairs.{change_half, half_of, heard_more, freed, is_none, is_quiet, is_spare, is_through, new_pair, reaches, sent_some, unlinked, wants_half};
ghost use Rattle.filter_model.specs.Looking.{and_then, answered, client_looked, fate_of, looked, lost, reply_for, taken_as, upstream_looked, without_front};
ghost use Rattle.filter_model.specs.Filters.{told};
ghost use Rattle.filter_core.specs.Happenings.{happening};
ghost use Rattle.filter_core.specs.Slots.{FitsPair, Leaves, is_free, listed_of, numbered_of, pair_of, replied};

use crate::FilterEvent;
use crate::buffers::{Buffers, hand_on};
use crate::cut::hand_list_on;
use crate::fate::fate_of;
use crate::listed::Listed;
use filter_model::Waits;
use frame_core::Look;
use pair_ports::Side;
use std::alloc::{AllocError, Global};

/// An open pair. Dropping it wipes what was heard and what is owed.
#[derive(Drop)]
pub struct Slot {
    pub number: u64,
    pub client: Buffers,
    pub upstream: Buffers,
    pub waits: Waits,
    // There is a connection to the agent behind.
    pub is_linked: bool,
    // Another connection would not do in its place.
    is_used: bool,
    // A bind was forwarded.
    is_bound: bool,
}

/// A pair at which nothing has happened. Takes no memory.
pub fn new(alloc: Global, number: u64) -> Slot
    ensures { numbered_of result ≡ record { number = number; pair = new_pair } }
{
    Slot {
        number,
        client: Buffers::new(alloc),
        upstream: Buffers::new(alloc),
        waits: Waits::Nothing,
        is_linked: false,
        is_used: false,
        is_bound: false,
    }
}

/// What a side is owed.
pub fn owed(slot: &Slot, side: Side) -> &[u8]
    ensures { result.now ≡ (half_of side (pair_of slot.now)).owed }
{
    match side {
        Side::Client => slot.client.owed(),
        Side::Upstream => slot.upstream.owed(),
    }
}

/// Whether there is a connection to a side.
pub fn reaches(slot: &Slot, side: Side) -> bool
    ensures { result ≡ reaches side (pair_of slot.now) }
{
    match side {
        Side::Client => true,
        Side::Upstream => slot.is_linked,
    }
}

/// Whether there is a connection to a side, and it is to be read.
pub fn wants(slot: &Slot, side: Side) -> bool
    ensures { result ≡ (reaches side (pair_of slot.now) && wants_half (half_of side (pair_of slot.now))) }
{
    match side {
        Side::Client => slot.client.wants(),
        Side::Upstream => slot.is_linked && slot.upstream.wants(),
    }
}

// Appends the piece to what was heard from a side.
fn push(slot: &mut Slot, side: Side, piece: &[u8]) -> Result<(), AllocError>
    ensures pair { OnOk result (pair_of slot.new ≡ change_half side (heard_more piece.now) (pair_of slot.old)) }
    ensures number { slot.new.number ≡ slot.old.number }
{
    match side {
        Side::Client => slot.client.hear(piece),
        Side::Upstream => {
            slot.is_used = true;
            slot.upstream.hear(piece)
        }
    }
}

// Drops the first `count` bytes that a side is owed.
fn drop_sent(slot: &mut Slot, side: Side, count: usize)
    requires { count ≤ length (half_of side (pair_of slot.old)).owed }
    ensures pair { pair_of slot.new ≡ change_half side (sent_some count) (pair_of slot.old) }
    ensures number { slot.new.number ≡ slot.old.number }
{
    match side {
        Side::Client => slot.client.sent(count),
        Side::Upstream => {
            slot.is_used = true;
            slot.upstream.sent(count);
        }
    }
}

// Takes the client's request with a body of this length: refuses or forwards it.
fn take(alloc: Global, slot: &mut Slot, listed: &Listed, body_len: u32) -> Result<(), AllocError>
    requires whole { front longest_body slot.old.client.heard ≡ Whole body_len }
    requires quiet { slot.old.waits ≡ waiting.Nothing }
    ensures pair { OnOk result (pair_of slot.new ≡ taken_as
        (fate_of (listed_of listed.now) (front_body body_len slot.old.client.heard))
        (front_body body_len slot.old.client.heard)
        (record (pair_of slot.old) { client = without_front body_len slot.old.client })) }
    ensures number { slot.new.number ≡ slot.old.number }
{
    let fate = fate_of(alloc, listed, slot.client.body(body_len))?;
    match fate {
        Waits::Nothing => {
            slot.client.owe_failure()?;
            slot.client.take(body_len);
        }
        Waits::OnList | Waits::OnReply => {
            hand_on(&mut slot.client, &mut slot.upstream, body_len)?;
        }
        Waits::OnBind => {
            hand_on(&mut slot.client, &mut slot.upstream, body_len)?;
            slot.is_bound = true;
        }
    }
    slot.waits = fate;
    Ok(())
}

// Whether these are no bytes.
fn is_none(bytes: &[u8]) -> bool
    ensures { result ≡ is_none bytes.now }
{
    match bytes {
        [] => true,
        _ => false,
    }
}

// Whether the pair waits for nothing.
fn is_quiet(waits: Waits) -> bool
    ensures { result ≡ is_quiet waits }
{
    match waits {
        Waits::Nothing => true,
        Waits::OnList | Waits::OnBind | Waits::OnReply => false,
    }
}

// Whether the client's next request may be taken: nothing is waited for, and neither side is owed bytes.
fn is_free(slot: &Slot) -> bool
    ensures { result ≡ is_free (pair_of slot.now) }
{
    is_quiet(slot.waits) && is_none(slot.client.owed()) && is_none(slot.upstream.owed())
}

// Looks at what the client sent, where it is its turn; tells whether the pair stays open.
#[tactic(auto, using(crate::proofs::LookLemmas::held_leaves, crate::proofs::LookLemmas::more_leaves, crate::proofs::LookLemmas::bad_leaves, crate::proofs::LookLemmas::taken_leaves, crate::proofs::LookLemmas::free_is_quiet))]
fn look_at_client(alloc: Global, slot: &mut Slot, listed: &Listed) -> Result<bool, AllocError>
    ensures looked { IfOk result (λ stays. Leaves stays (pair_of slot.new)
        (client_looked (listed_of listed.now) (pair_of slot.old))) }
    ensures number { slot.new.number ≡ slot.old.number }
{
    if !is_free(slot) {
        return Ok(true);
    }
    match slot.client.front() {
        Look::Whole { body } => {
            take(alloc, slot, listed, body)?;
            Ok(true)
        }
        Look::Bad { .. } => Ok(false),
        Look::More => Ok(true),
    }
}

// Takes the upstream's answer with a body of this length, and owes the client the reply that it makes; tells whether it
// makes one.
fn reply(alloc: Global, slot: &mut Slot, listed: &Listed, body_len: u32) -> Result<bool, AllocError>
    requires { front longest_body slot.old.upstream.heard ≡ Whole body_len }
    ensures is_one { IfOk result (λ is_one. is_one ≡ is_some (reply_for slot.old.waits (listed_of listed.now)
        (front_body body_len slot.old.upstream.heard))) }
    ensures pair { OnOk result (pair_of slot.new ≡ replied (reply_for slot.old.waits (listed_of listed.now)
        (front_body body_len slot.old.upstream.heard)) body_len (pair_of slot.old)) }
    ensures number { slot.new.number ≡ slot.old.number }
{
    match slot.waits {
        Waits::Nothing => Ok(false),
        Waits::OnList => {
            hand_list_on(
                alloc,
                &mut slot.upstream,
                &mut slot.client,
                &listed.blobs,
                body_len,
            )
        }
        Waits::OnBind | Waits::OnReply => {
            hand_on(&mut slot.upstream, &mut slot.client, body_len)?;
            Ok(true)
        }
    }
}

// Takes the upstream's answer with a body of this length; tells whether the pair stays open.
#[tactic(auto, using(crate::proofs::LookLemmas::answered_none, crate::proofs::LookLemmas::answered_some))]
fn take_answer(
    alloc: Global,
    slot: &mut Slot,
    listed: &Listed,
    body_len: u32,
) -> Result<bool, AllocError>
    requires { front longest_body slot.old.upstream.heard ≡ Whole body_len }
    ensures looked { IfOk result (λ stays. Leaves stays (pair_of slot.new) (answered
        (reply_for slot.old.waits (listed_of listed.now) (front_body body_len slot.old.upstream.heard))
        body_len (pair_of slot.old))) }
    ensures number { slot.new.number ≡ slot.old.number }
{
    if !reply(alloc, slot, listed, body_len)? {
        return Ok(false);
    }
    slot.waits = Waits::Nothing;
    Ok(is_none(slot.upstream.heard()))
}

// Looks at what the upstream sent; tells whether the pair stays open.
#[tactic(auto, using(crate::proofs::LookLemmas::unasked_leaves, crate::proofs::LookLemmas::upstream_more, crate::proofs::LookLemmas::upstream_bad, crate::proofs::LookLemmas::upstream_whole))]
fn look_at_upstream(alloc: Global, slot: &mut Slot, listed: &Listed) -> Result<bool, AllocError>
    ensures looked { IfOk result (λ stays. Leaves stays (pair_of slot.new)
        (upstream_looked (listed_of listed.now) (pair_of slot.old))) }
    ensures number { slot.new.number ≡ slot.old.number }
{
    if is_quiet(slot.waits) {
        return Ok(is_none(slot.upstream.heard()));
    }
    match slot.upstream.front() {
        Look::Whole { body } => take_answer(alloc, slot, listed, body),
        Look::Bad { .. } => Ok(false),
        Look::More => Ok(true),
    }
}

// Looks at both sides, the client's first; tells whether the pair stays open.
#[tactic(auto, using(crate::proofs::LookLemmas::then_stops, crate::proofs::LookLemmas::then_goes))]
fn look_at_both(alloc: Global, slot: &mut Slot, listed: &Listed) -> Result<bool, AllocError>
    ensures looked { IfOk result (λ stays. Leaves stays (pair_of slot.new)
        (and_then (client_looked (listed_of listed.now) (pair_of slot.old)) (upstream_looked (listed_of listed.now)))) }
    ensures number { slot.new.number ≡ slot.old.number }
{
    if !look_at_client(alloc, slot, listed)? {
        return Ok(false);
    }
    look_at_upstream(alloc, slot, listed)
}

// Whether nothing is under way with the agent behind.
fn is_through(slot: &Slot) -> bool
    ensures { result ≡ is_through (pair_of slot.now) }
{
    is_quiet(slot.waits) && is_none(slot.upstream.heard()) && is_none(slot.upstream.owed())
}

// The connection to the agent behind is as good as a new one where nothing is under way and no bind was ever forwarded.
fn free(slot: &mut Slot)
    ensures pair { pair_of slot.new ≡ freed (pair_of slot.old) }
    ensures number { slot.new.number ≡ slot.old.number }
{
    slot.is_used = slot.is_used && (slot.is_bound || !is_through(slot));
}

/// Whether there is a connection to the agent behind that the pair could do without.
pub fn is_spare(slot: &Slot) -> bool
    ensures { result ≡ is_spare (pair_of slot.now) }
{
    slot.is_linked && !slot.is_bound && is_through(slot)
}

/// Takes the connection to the agent behind from the pair.
pub fn unlink(slot: &mut Slot)
    ensures pair { pair_of slot.new ≡ unlinked (pair_of slot.old) }
    ensures number { slot.new.number ≡ slot.old.number }
{
    slot.is_linked = false;
}

// Looks at both sides, and frees a connection on which nothing is under way; tells whether the pair stays open.
#[tactic(auto, using(crate::proofs::LookLemmas::freed_leaves))]
fn look(alloc: Global, slot: &mut Slot, listed: &Listed) -> Result<bool, AllocError>
    ensures looked { IfOk result (λ stays. Leaves stays (pair_of slot.new)
        (looked (listed_of listed.now) (pair_of slot.old))) }
    ensures number { slot.new.number ≡ slot.old.number }
{
    let stays = look_at_both(alloc, slot, listed)?;
    free(slot);
    Ok(stays)
}

// The pair was connected to the agent behind; tells that it stays open.
fn link(slot: &mut Slot) -> bool
    ensures pair { pair_of slot.new ≡ record (pair_of slot.old) { is_linked = true } }
    ensures number { slot.new.number ≡ slot.old.number }
    ensures stays { result ≡ true }
{
    slot.is_linked = true;
    true
}

// The connection to the agent behind has ended; tells whether the pair stays open, as it does where that wasn't used.
#[tactic(auto, using(crate::proofs::LookLemmas::lost_used, crate::proofs::LookLemmas::lost_unused))]
fn lose(slot: &mut Slot) -> bool
    ensures looked { Leaves result (pair_of slot.new) (lost (pair_of slot.old)) }
    ensures number { slot.new.number ≡ slot.old.number }
{
    if slot.is_used {
        return false;
    }
    unlink(slot);
    true
}

// A side sent this piece; tells whether the pair stays open.
fn hear(
    alloc: Global,
    slot: &mut Slot,
    listed: &Listed,
    side: Side,
    piece: &[u8],
) -> Result<bool, AllocError>
    ensures looked { IfOk result (λ stays. Leaves stays (pair_of slot.new)
        (looked (listed_of listed.now) (change_half side (heard_more piece.now) (pair_of slot.old)))) }
    ensures number { slot.new.number ≡ slot.old.number }
{
    push(slot, side, piece)?;
    look(alloc, slot, listed)
}

// A side took so many bytes; tells whether the pair stays open.
fn sent(
    alloc: Global,
    slot: &mut Slot,
    listed: &Listed,
    side: Side,
    count: usize,
) -> Result<bool, AllocError>
    requires { count ≤ length (half_of side (pair_of slot.old)).owed }
    ensures looked { IfOk result (λ stays. Leaves stays (pair_of slot.new)
        (looked (listed_of listed.now) (change_half side (sent_some count) (pair_of slot.old)))) }
    ensures number { slot.new.number ≡ slot.old.number }
{
    drop_sent(slot, side, count);
    look(alloc, slot, listed)
}

/// An event of the pair happened; tells whether the pair stays open.
pub fn tell(
    alloc: Global,
    slot: &mut Slot,
    listed: &Listed,
    event: &FilterEvent<'_>,
) -> Result<bool, AllocError>
    requires { FitsPair (happening event.now) (pair_of slot.old) }
    ensures looked { IfOk result (λ stays. Leaves stays (pair_of slot.new)
        (told (happening event.now) (listed_of listed.now) (pair_of slot.old))) }
    ensures number { slot.new.number ≡ slot.old.number }
{
    match *event {
        FilterEvent::Joined => look(alloc, slot, listed),
        FilterEvent::Connected { .. } => Ok(link(slot)),
        FilterEvent::Heard { side, piece, .. } => hear(alloc, slot, listed, side, piece),
        FilterEvent::Took { side, count, .. } => sent(alloc, slot, listed, side, count),
        FilterEvent::Lost { .. } => Ok(lose(slot)),
        FilterEvent::Ended { .. } => Ok(false),
    }
}

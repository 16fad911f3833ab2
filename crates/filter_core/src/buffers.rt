//! What was heard from a side of a pair, and what the side is owed.

ghost use Rattle.std.specs.Prelude.{◌≡◌, ◌+◌, ◌≤◌, [], IsTrue, OnOk, length, map};
ghost use Rattle.wire_text.specs.Bounds.{longest_body};
ghost use Rattle.wire_text.specs.Frames.{Whole, after_front, front, front_body};
ghost use Rattle.wire_text.specs.Wire.{string};
ghost use Rattle.frame_core.specs.Looks.{front_of};
ghost use Rattle.agent_msg.specs.Replies.{entries_length, failure, identities_answer};
ghost use Rattle.agent_msg.specs.ReplyReading.{lent};
ghost use Rattle.filter_model.specs.Pairs.{empty_half, heard_more, owes_more, sent_some, wants_half};
ghost use Rattle.filter_model.specs.Looking.{without_front};

use crate::cut::put_list;
use agent_msg::put_status;
use frame_core::{LONGEST_BODY, Look, front_body, look, put_frame};
use secret_buf::ScrubBuf;
use std::alloc::{AllocError, Global};
use std::marker::Model;
use std::mem;

/// The storage of longer bodies isn't kept for the next one, in bytes.
const LONG: usize = 8192;

/// How many bytes FAILURE has as it is sent.
const STATUS_LEN: usize = 5;

/// The buffers of one side. Dropping them wipes them.
#[derive(Drop)]
pub struct Buffers {
    heard: ScrubBuf,
    owed: ScrubBuf,
    is_long: bool,
}

impl Model for Buffers {
    ghost use Rattle.filter_model.specs.Pairs.{Half};

    ghost Value = { Half };

    ghost view = { λ b. record { heard = b.heard.live; owed = b.owed.live } };
}

impl Buffers {
    /// Takes no memory.
    pub fn new(alloc: Global) -> Buffers
        ensures { result ≡ empty_half }
    {
        Buffers {
            heard: ScrubBuf::new(alloc),
            owed: ScrubBuf::new(alloc),
            is_long: false,
        }
    }

    /// What was heard and not taken.
    pub fn heard(&self) -> &[u8]
        ensures { result.now ≡ self.now.heard }
    {
        self.heard.live()
    }

    pub fn owed(&self) -> &[u8]
        ensures { result.now ≡ self.now.owed }
    {
        self.owed.live()
    }

    /// Appends the piece to what was heard.
    pub fn hear(&mut self, piece: &[u8]) -> Result<(), AllocError>
        ensures { OnOk result (self.new ≡ heard_more piece.now self.old) }
    {
        self.heard.push_slice(piece)?;
        Ok(())
    }

    /// The first `count` bytes that were owed are sent, and with the last of them the storage of a long reply is given
    /// back.
    pub fn sent(&mut self, count: usize)
        requires { count ≤ length self.old.owed }
        ensures { self.new ≡ sent_some count self.old }
    {
        self.owed.consume(count);
        if self.is_long && self.owed.live().is_empty() {
            self.owed.wipe();
            self.is_long = false;
        }
    }

    /// What stands at the front of what was heard.
    pub fn front(&self) -> Look
        ensures { front_of result ≡ front longest_body self.now.heard }
    {
        look(self.heard.live(), LONGEST_BODY)
    }

    /// Whether more is to be read: neither a whole frame nor a bad one is there.
    pub fn wants(&self) -> bool
        ensures { result ≡ wants_half self.now }
    {
        matches!(self.front(), Look::More)
    }

    /// The body of the whole frame at the front.
    #[tactic(auto, using(wire_text::proofs::FrontLemmas::whole_within, wire_text::proofs::FrontLemmas::body_within))]
    pub fn body(&self, body_len: u32) -> &[u8]
        requires { front longest_body self.now.heard ≡ Whole body_len }
        ensures body { result.now ≡ front_body body_len self.now.heard }
        ensures short { length result.now ≤ longest_body }
    {
        front_body(self.heard.live(), body_len)
    }

    /// Drops the frame at the front, and with the last byte the storage that a long one took.
    #[tactic(auto, using(wire_text::proofs::FrontLemmas::whole_within))]
    pub fn take(&mut self, body_len: u32)
        requires { front longest_body self.old.heard ≡ Whole body_len }
        ensures { self.new ≡ without_front body_len self.old }
    {
        let size = 4 + body_len as usize;
        self.heard.consume(size);
        if size > LONG && self.heard.live().is_empty() {
            self.heard.wipe();
        }
    }

    /// Owes the frame of this body.
    pub fn owe(&mut self, body: &[u8]) -> Result<(), AllocError>
        requires { length body.now ≤ longest_body }
        ensures { OnOk result (self.new ≡ owes_more (string body.now) self.old) }
    {
        self.is_long = self.is_long || body.len() > LONG;
        put_frame(&mut self.owed, body)?;
        Ok(())
    }

    /// Owes FAILURE.
    pub fn owe_failure(&mut self) -> Result<(), AllocError>
        ensures { OnOk result (self.new ≡ owes_more failure self.old) }
    {
        self.owed.reserve(STATUS_LEN)?;
        put_status(&mut self.owed, false);
        Ok(())
    }

    /// Owes the list of these identities.
    pub fn owe_list(&mut self, identities: &[(&[u8], &[u8])]) -> Result<(), AllocError>
        requires { 5 + entries_length (map lent identities.now) ≤ longest_body }
        ensures { OnOk result (self.new ≡ owes_more (identities_answer (map lent identities.now)) self.old) }
    {
        put_list(&mut self.owed, identities)?;
        self.is_long = self.is_long || self.owed.live().len() > LONG;
        Ok(())
    }
}

// Whether the frame at the front, with a body of this length, is all that was heard.
fn is_alone(heard: &[u8], body_len: u32) -> bool
    requires { front longest_body heard.now ≡ Whole body_len }
    ensures whole { IsTrue result → heard.now ≡ string (front_body body_len heard.now) }
    ensures nothing { IsTrue result → after_front body_len heard.now ≡ [] }
{
    if heard.len() == 4 + body_len as usize {
        return true;
    }
    false
}

/// Takes the frame at the front of what was heard from one side, and owes it the other: by its storage, where nothing
/// else was heard and nothing else is owed, so that no byte moves.
#[tactic(auto, using(wire_text::proofs::FrontLemmas::whole_within))]
pub fn hand_on(from: &mut Buffers, to: &mut Buffers, body_len: u32) -> Result<(), AllocError>
    requires { front longest_body from.old.heard ≡ Whole body_len }
    ensures taken { OnOk result (from.new ≡ without_front body_len from.old) }
    ensures owed { OnOk result (to.new ≡ owes_more (string (front_body body_len from.old.heard)) to.old) }
{
    if is_alone(from.heard.live(), body_len) && to.owed.live().is_empty() {
        mem::swap(&mut from.heard, &mut to.owed);
        to.is_long = to.is_long || body_len as usize > LONG;
        return Ok(());
    }
    to.owe(from.body(body_len))?;
    from.take(body_len);
    Ok(())
}

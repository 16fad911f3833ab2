//! The link itself: what was asked and is unanswered, and what is still to be sent.

ghost use Rattle.std.specs.Prelude.{◌≡◌, ◌≢◌, ◌↔◌, ◌+◌, ◌-◌, ◌^◌, ◌<◌, ◌≤◌, ◌++◌, IsTrue, IfOk, MatchResult, None, Some, OnOk, OnErr, length};
ghost use Rattle.std.specs.Option.{option_copied};
ghost use Rattle.wire_text.specs.Bounds.{longest_to_child};
ghost use Rattle.wire_text.specs.Wire.{string};
ghost use Rattle.child_msg.specs.ChildFrames.{to_child_body, to_child_length};
ghost use Rattle.child_msg.specs.Messages.{to_child_message};
ghost use Rattle.helper_link.specs.HelperLink.{ArePutBy, ask_fault, asked_len, begun, linked_to, lost, newest, no_link, oldest, sendable, sent, sign_request, submitted, verify_request, IsLinked, IsRefusedWith, IsStarting};
ghost use Rattle.helper_link.specs.Sound.{IsSound};
ghost use Rattle.helper_link.specs.Telling.{telling};

use crate::answer::Told;
use crate::ask::{Ask, AskKind};
use crate::fault::AskFault;
use crate::settle::settle_stream;
use crate::state::LinkState;
use child_msg::{ToChild, write_to_child};
use plain_lists::{Bytes, PlainList};
use secret_buf::{ScrubBuf, SecretBytes};
use std::alloc::{AllocError, Global};
use std::marker::Model;
use std::mem;

/// How many asks may be unanswered (ours).
const MAX_ASKS: usize = 256;

/// With so many bytes in the bodies of the unanswered asks together no ask is put (ours).
const MAX_ASKED: usize = 8_388_608;

/// The agent's side of the link to its helper process.
///
/// Dropping it wipes what is to be sent.
#[derive(Drop)]
pub struct Link {
    state: LinkState,
    asks: Vec<Ask>,
    // How many bytes the bodies of `asks` have together.
    asked: usize,
    last: u64,
    owed: ScrubBuf,
    heard: ScrubBuf,
    faults: u64,
}

impl Model for Link {
    ghost use Rattle.std.specs.Prelude.{◌≡◌};
    ghost use Rattle.helper_link.specs.HelperLink.{HelperLink, asked_len};
    ghost use Rattle.helper_link.specs.Sound.{IsSound, link_of};

    ghost Value = { HelperLink };

    ghost view = { λ link. link_of link.state link.asks.items link.last link.owed.live
        link.heard.live link.faults };

    ghost invariant = { λ link. IsSound (link_of link.state link.asks.items link.last
        link.owed.live link.heard.live link.faults) × (link.asked ≡ asked_len link.asks.items) };
}

impl Link {
    /// Takes no memory.
    pub fn new(alloc: Global) -> Link
        ensures { result ≡ no_link }
    {
        Link {
            state: LinkState::None,
            asks: Vec::new(alloc),
            asked: 0,
            last: 0,
            owed: ScrubBuf::new(alloc),
            heard: ScrubBuf::new(alloc),
            faults: 0,
        }
    }

    /// How far the link has come.
    pub fn state(&self) -> LinkState
        ensures value { result ≡ self.now.state }
        ensures sound { IsSound self.now }
    {
        self.state
    }

    /// A helper is being started by this job. Nothing changes where one is there or being started.
    /// Takes no memory.
    pub fn begin(&mut self, job: u64)
        ensures { self.new ≡ begun job self.old }
    {
        if self.state == LinkState::None {
            self.state = LinkState::Starting { job };
        }
    }

    /// The helper came to this port. Takes no memory.
    pub fn linked(&mut self, port: u64)
        requires { IsStarting self.old.state }
        ensures { self.new ≡ linked_to port self.old }
    {
        self.state = LinkState::Linked { port };
    }

    /// Puts an ask for a signature of `message` by the private key, whose public key blob is
    /// `blob`, and gives its number. `now` is the second of the caller's monotonic clock.
    ///
    /// The private key is in no memory but that of buffers that are wiped.
    pub fn ask_sign(
        &mut self,
        asker: u64,
        private: &SecretBytes,
        blob: &[u8],
        message: &[u8],
        flags: u32,
        now: u64,
    ) -> Result<u64, AskFault>
        requires state { self.old.state ≢ LinkState.None }
        requires later { ArePutBy now self.old.asks }
        requires body { to_child_length (sign_request private.now blob.now message.now flags 0)
            ≤ longest_to_child }
        ensures ok { OnOk result (self.new ≡ submitted AskKind.Signing asker blob.now
            (sign_request private.now blob.now message.now flags) now self.old) }
        ensures value { IfOk result (λ number. number ≡ self.old.last + 1) }
        ensures fault { MatchResult result (λ _. ask_fault self.old ≡ None)
            (IsRefusedWith (ask_fault self.old)) }
        ensures unchanged { OnErr result (self.new ≡ self.old) }
    {
        let number = self.next_number()?;
        let mut secret = ScrubBuf::new(*self.asks.allocator());
        private.append_to(&mut secret)?;
        let request = ToChild::Sign {
            ask: number,
            private: secret.live(),
            blob,
            message,
            flags,
        };
        self.submit(asker, AskKind::Signing, blob, now, &request)?;
        Ok(number)
    }

    /// Puts an ask for the verification of a host key's signature over a session identifier, and
    /// gives its number. `now` is the second of the caller's monotonic clock.
    pub fn ask_verify(
        &mut self,
        asker: u64,
        host_key: &[u8],
        signature: &[u8],
        session: &[u8],
        now: u64,
    ) -> Result<u64, AskFault>
        requires state { self.old.state ≢ LinkState.None }
        requires later { ArePutBy now self.old.asks }
        requires body { to_child_length (verify_request host_key.now signature.now session.now 0)
            ≤ longest_to_child }
        ensures ok { OnOk result (self.new ≡ submitted AskKind.Verifying asker host_key.now
            (verify_request host_key.now signature.now session.now) now self.old) }
        ensures value { IfOk result (λ number. number ≡ self.old.last + 1) }
        ensures fault { MatchResult result (λ _. ask_fault self.old ≡ None)
            (IsRefusedWith (ask_fault self.old)) }
        ensures unchanged { OnErr result (self.new ≡ self.old) }
    {
        let number = self.next_number()?;
        let request = ToChild::Verify {
            ask: number,
            host_key,
            signature,
            session,
        };
        self.submit(asker, AskKind::Verifying, host_key, now, &request)?;
        Ok(number)
    }

    /// The second at which the oldest unanswered ask was put. Takes no memory.
    pub fn oldest(&self) -> Option<u64>
        ensures value { result ≡ oldest self.now.asks }
        ensures sound { IsSound self.now }
    {
        let first = self.asks.first()?;
        Some(first.put_at)
    }

    /// The bytes to be sent to the helper: none while it isn't there.
    pub fn owed(&self) -> &[u8]
        ensures { result.now ≡ sendable self.now.state self.now.owed }
    {
        match self.state {
            LinkState::Linked { .. } => self.owed.live(),
            _ => &[],
        }
    }

    /// The first `count` bytes of `owed` were sent. Takes no memory.
    pub fn took(&mut self, count: usize)
        requires { count ≤ length (sendable self.old.state self.old.owed) }
        ensures { self.new ≡ sent count self.old }
    {
        self.owed.consume(count);
    }

    /// Takes in a piece of the helper's stream, and tells what it settles.
    ///
    /// After want of memory the link is only to be dropped.
    pub fn told(&mut self, piece: &[u8]) -> Result<Told, AllocError>
        requires { IsLinked self.old.state }
        ensures link { OnOk result (self.new ≡ (telling piece.now self.old).link) }
        ensures settled { IfOk result (λ told.
            told.settled ≡ (telling piece.now self.old).settled) }
        ensures fault { IfOk result (λ told. told.fault ≡ (telling piece.now self.old).fault) }
    {
        self.heard.push_slice(piece)?;
        let alloc = *self.asks.allocator();
        let Ok(end) = settle_stream(alloc, self.heard.live(), &mut self.asks, &mut self.asked)
        else {
            self.asks.clear();
            self.asked = 0;
            self.heard.wipe();
            return Err(AllocError);
        };
        self.heard.consume(end.read);
        Ok(Told {
            settled: PlainList::from_vec(end.settled),
            fault: end.fault,
        })
    }

    /// The helper is gone, or failed to start. Takes no memory.
    ///
    /// What is to be sent and what was heard is wiped. Gives the unanswered asks: they failed.
    pub fn lose(&mut self) -> Vec<Ask>
        requires { self.old.state ≢ LinkState.None }
        ensures failed { result.items ≡ self.old.asks }
        ensures link { self.new ≡ lost self.old }
    {
        self.state = LinkState::None;
        self.owed.wipe();
        self.heard.wipe();
        self.faults = self.faults.saturating_add(1);
        self.asked = 0;
        let none = Vec::new(*self.asks.allocator());
        mem::replace(&mut self.asks, none)
    }

    /// The ask that was put last, where it is unanswered: `None` where none is.
    pub fn newest(&self) -> Option<&Ask>
        ensures { option_copied result ≡ newest self.now.asks }
    {
        self.asks.last()
    }

    /// How often the link was lost: it stays at 2^64 - 1.
    pub fn faults(&self) -> u64
        ensures { result ≡ self.now.faults }
    {
        self.faults
    }

    /// The number of the last ask, 0 where none was put.
    pub fn last(&self) -> u64
        ensures { result ≡ self.now.last }
    {
        self.last
    }

    /// Whether each number was used, so that no ask can be put any more.
    pub fn spent(&self) -> bool
        ensures { IsTrue result ↔ (self.now.last ≡ 2 ^ 64 - 1) }
    {
        self.last == u64::MAX
    }
}

impl Link {
    // The number of an ask that is put now.
    fn next_number(&self) -> Result<u64, AskFault>
        ensures room { OnOk result ((length self.now.asks < 256) × (asked_len self.now.asks < 8388608)
            × (self.now.last < 2 ^ 64 - 1)) }
        ensures value { IfOk result (λ number. number ≡ self.now.last + 1) }
        ensures fault { MatchResult result (λ _. ask_fault self.now ≡ None)
            (λ fault. ask_fault self.now ≡ Some fault) }
    {
        if self.asks.len() >= MAX_ASKS || self.asked >= MAX_ASKED {
            return Err(AskFault::Full);
        }
        self.last.checked_add(1).ok_or(AskFault::NumbersSpent)
    }

    // Writes the request and then keeps the ask, for which room was made before.
    fn submit(
        &mut self,
        asker: u64,
        kind: AskKind,
        blob: &[u8],
        now: u64,
        request: &ToChild<'_>,
    ) -> Result<(), AllocError>
        requires state { self.old.state ≢ LinkState.None }
        requires later { ArePutBy now self.old.asks }
        requires few { length self.old.asks < 256 }
        requires light { asked_len self.old.asks < 8388608 }
        requires last { self.old.last < 2 ^ 64 - 1 }
        requires body { to_child_length (to_child_message request.now) ≤ longest_to_child }
        ensures ok { OnOk result (self.new
            ≡ submitted kind asker blob.now (λ _. to_child_message request.now) now self.old) }
        ensures unchanged { OnErr result (self.new ≡ self.old) }
    {
        self.asks.reserve(1)?;
        let blob = Bytes::from_vec(Vec::from_slice(*self.asks.allocator(), blob)?);
        let size = append_request(&mut self.owed, request)?;
        self.last += 1;
        self.asked += size;
        self.asks.push(Ask {
            number: self.last,
            asker,
            kind,
            blob,
            put_at: now,
            size,
        })?;
        Ok(())
    }
}

// Appends the frame of a request to what is owed, and gives the length of its body.
fn append_request(owed: &mut ScrubBuf, request: &ToChild<'_>) -> Result<usize, AllocError>
    requires { to_child_length (to_child_message request.now) ≤ longest_to_child }
    ensures live { OnOk result
        (owed.new.live ≡ owed.old.live ++ string (to_child_body (to_child_message request.now))) }
    ensures size { IfOk result (λ size. size ≡ length (to_child_body (to_child_message request.now))) }
    ensures small { IfOk result (λ size. size ≤ longest_to_child) }
    ensures err { OnErr result (owed.new ≡ owed.old) }
{
    let before = owed.live().len();
    write_to_child(owed, request)?;
    Ok(owed.live().len() - before - 4)
}

//! Requests that need no file: to lock the agent, to unlock it, and to remove all identities.

ghost use Rattle.std.specs.Prelude.{◌≡◌, ◌≢◌, ◌≤◌, ℕ, List, Some, Err, IfOk, MatchResult, length};
ghost use Rattle.add_core.specs.Locks.{lock_body, lock_line, lock_step, remove_all_step};
ghost use Rattle.add_core.specs.Steps.{Follows, HasPeerCause, HasSinkCause, IsOfTalk};
ghost use Rattle.wire_text.specs.Wire.{string};
ghost use Rattle.world_ports.specs.Causes.{Rose};

use crate::exchange::request;
use crate::fault::{AddFault, Stop};
use crate::passphrase::read_passphrase;
use agent_msg::{Request, write_request};
use secret_buf::ScrubBuf;
use std::alloc::{AllocError, Global};
use world_ports::{Sink, Source};

/// The frame of LOCK, or of UNLOCK.
fn lock_frame(alloc: Global, locks: bool, passphrase: &[u8]) -> Result<ScrubBuf, AllocError>
    requires { length passphrase.now ≤ 1024 }
    ensures { IfOk result (λ frame. frame.live ≡ string (lock_body locks passphrase.now)) }
{
    let mut frame = ScrubBuf::new(alloc);
    let request = if locks {
        Request::Lock { passphrase }
    } else {
        Request::Unlock { passphrase }
    };
    write_request(alloc, &mut frame, &request)?;
    Ok(frame)
}

fn lock_line(locks: bool) -> &'static [u8]
    ensures { result.now ≡ lock_line locks }
{
    if locks {
        b"Agent locked.\n"
    } else {
        b"Agent unlocked.\n"
    }
}

/// Locks the agent, or unlocks it, with the passphrase of the input.
pub fn lock<I: Source, P: Source + Sink, E: Sink>(
    alloc: Global,
    locks: bool,
    input: &mut I,
    peer: &mut P,
    errors: &mut E,
) -> Result<(), Stop>
    ensures told { (left : List ℕ) (replies : List ℕ)
        → (I.seen input.old).left ≡ Some left → (P.seen peer.old).left ≡ Some replies
        → Follows result (lock_step locks left replies)
        (P.seen peer.old) (P.seen peer.new) (E.seen errors.old) (E.seen errors.new) }
    ensures peer { HasPeerCause result (P.seen peer.old) (P.seen peer.new) }
    ensures errors { HasSinkCause result (E.seen errors.old) (E.seen errors.new) }
    ensures input { result ≡ Err (Stop.Fault AddFault.InputFault)
        → Rose (I.seen input.old).read_faults (I.seen input.new).read_faults }
    ensures files { (place : ℕ) → result ≢ Err (Stop.Fault (AddFault.File place)) }
{
    let passphrase = read_passphrase(alloc, input)?;
    let frame = lock_frame(alloc, locks, passphrase.live())?;
    request(alloc, peer, errors, frame.live(), lock_line(locks))
}

/// Removes all identities.
pub fn remove_all<P: Source + Sink, E: Sink>(
    alloc: Global,
    peer: &mut P,
    errors: &mut E,
) -> Result<(), Stop>
    ensures told { (replies : List ℕ) → (P.seen peer.old).left ≡ Some replies
        → Follows result (remove_all_step replies)
        (P.seen peer.old) (P.seen peer.new) (E.seen errors.old) (E.seen errors.new) }
    ensures peer { HasPeerCause result (P.seen peer.old) (P.seen peer.new) }
    ensures errors { HasSinkCause result (E.seen errors.old) (E.seen errors.new) }
    ensures talk { IsOfTalk result }
{
    let mut frame = ScrubBuf::new(alloc);
    write_request(alloc, &mut frame, &Request::RemoveAll)?;
    request(
        alloc,
        peer,
        errors,
        frame.live(),
        b"All identities removed.\n",
    )
}

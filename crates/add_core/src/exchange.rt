//! One request to the agent: its frame is sent, its reply read, and its line written on SUCCESS.

ghost use Rattle.std.specs.Prelude.{◌≡◌, ◌≢◌, ℕ, List, Some, Err, IfOk};
ghost use Rattle.add_core.specs.Exchanges.{Judges, asked, reply_at, requested, verdict_of};
ghost use Rattle.add_core.specs.Steps.{Follows, HasPeerCause, HasSinkCause, IsOfTalk};
ghost use Rattle.agent_msg.specs.ReplyReading.{reply_of};
ghost use Rattle.world_ports.specs.Streams.{StreamView};

use crate::fault::{AddFault, Stop};
use crate::hearing::take_reply;
use agent_msg::{Reply, ReplyFault, read_reply};
use std::alloc::Global;
use world_ports::{Sink, Source, write_all};

/// Sends a frame, and reads the body of its reply.
pub fn exchange<P: Source + Sink>(
    alloc: Global,
    peer: &mut P,
    frame: &[u8],
) -> Result<Vec<u8>, Stop>
    ensures told { (replies : List ℕ) (sink : StreamView) → (P.seen peer.old).left ≡ Some replies
        → Follows result (asked frame.now replies) (P.seen peer.old) (P.seen peer.new) sink sink }
    ensures reply { (replies : List ℕ) → (P.seen peer.old).left ≡ Some replies
        → IfOk result (λ body. reply_at replies ≡ reply_of body.items) }
    ensures cause { HasPeerCause result (P.seen peer.old) (P.seen peer.new) }
    ensures own { result ≢ Err (Stop.Fault AddFault.OutputFault) }
    ensures talk { IsOfTalk result }
{
    let Ok(()) = write_all(peer, frame) else {
        return Err(Stop::Fault(AddFault::PeerFault));
    };
    Ok(take_reply(alloc, peer)?)
}

/// Whether the reply of this body is SUCCESS.
fn judge(alloc: Global, body: &[u8]) -> Result<(), Stop>
    ensures { Judges result (verdict_of (reply_of body.now)) }
{
    match read_reply(alloc, body) {
        Ok(Reply::Success) => Ok(()),
        Ok(Reply::Failure) => Err(Stop::Fault(AddFault::Refused)),
        Err(ReplyFault::Memory) => Err(Stop::Memory),
        _ => Err(Stop::Fault(AddFault::BadReply)),
    }
}

/// Sends a frame, and writes the line where the reply is SUCCESS.
pub fn request<P: Source + Sink, S: Sink>(
    alloc: Global,
    peer: &mut P,
    sink: &mut S,
    frame: &[u8],
    line: &[u8],
) -> Result<(), Stop>
    ensures told { (replies : List ℕ) → (P.seen peer.old).left ≡ Some replies
        → Follows result (requested frame.now line.now replies)
        (P.seen peer.old) (P.seen peer.new) (S.seen sink.old) (S.seen sink.new) }
    ensures peer { HasPeerCause result (P.seen peer.old) (P.seen peer.new) }
    ensures sink { HasSinkCause result (S.seen sink.old) (S.seen sink.new) }
    ensures talk { IsOfTalk result }
{
    let body = exchange(alloc, peer, frame)?;
    judge(alloc, &body)?;
    write_all(sink, line)?;
    Ok(())
}

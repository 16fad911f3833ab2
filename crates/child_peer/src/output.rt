//! Writes to the agent: all of a buffer, or the frame of a message.

ghost use Rattle.std.specs.Io.KnownBytes.{Appends};
ghost use Rattle.std.specs.Prelude.{◌≡◌, ◌≤◌, [], OnErr, OnOk};
ghost use Rattle.child_msg.specs.ChildFrames.{from_child_body, from_child_length};
ghost use Rattle.child_msg.specs.Messages.{from_child_message};
ghost use Rattle.child_peer.specs.Hearing.{Says};
ghost use Rattle.wire_text.specs.Bounds.{longest_body};
ghost use Rattle.wire_text.specs.Wire.{string};
ghost use Rattle.world_ports.specs.Causes.{HasCause};
ghost use Rattle.world_ports.specs.Streams.{OnlyWrites, WritesPart};

use crate::fault::SayFault;
use child_msg::{FromChild, write_from_child};
use secret_buf::ScrubBuf;
use std::alloc::Global;
use world_ports::{Fault, Sink, write_all};

/// Writes all of `out`, and removes it there. Stops at the first write that fails.
pub fn flush<P: Sink>(out: &mut ScrubBuf, peer: &mut P) -> Result<(), Fault>
    ensures ok { OnOk result
        (Appends (P.seen peer.old).written (P.seen peer.new).written out.old.live) }
    ensures empty { OnOk result (out.new.live ≡ []) }
    ensures err { OnErr result (WritesPart out.old.live (P.seen peer.old) (P.seen peer.new)) }
    ensures cause { HasCause
        (P.seen peer.old).write_faults (P.seen peer.new).write_faults result }
    ensures only { OnlyWrites (P.seen peer.old) (P.seen peer.new) }
{
    write_all(peer, out.live())?;
    let count = out.live().len();
    out.consume(count);
    Ok(())
}

/// Writes the frame of a message.
pub fn say<P: Sink>(alloc: Global, message: &FromChild<'_>, peer: &mut P) -> Result<(), SayFault>
    requires { from_child_length (from_child_message message.now) ≤ longest_body }
    ensures says { Says result (string (from_child_body (from_child_message message.now)))
        (P.seen peer.old) (P.seen peer.new) }
    ensures only { OnlyWrites (P.seen peer.old) (P.seen peer.new) }
{
    let mut out = ScrubBuf::new(alloc);
    write_from_child(&mut out, message)?;
    flush(&mut out, peer)?;
    Ok(())
}

//! Runs the askpass program with the prompt, and sends the agent the user's answer.

ghost use Rattle.std.specs.Prelude.{◌≡◌, List, ℕ};
ghost use Rattle.child_msg.specs.ChildFrames.{from_child_body};
ghost use Rattle.child_peer.specs.Hearing.{Says};
ghost use Rattle.child_peer.specs.Words.{plain_words};
ghost use Rattle.relay_core.specs.Claims.{Ends, Relaying};
ghost use Rattle.relay_core.specs.Steps.{Asks, Consults, IsGreeted};
ghost use Rattle.relay_core.specs.Transcript.{hello_frame, verdict_message};
ghost use Rattle.wire_text.specs.Wire.{string};
ghost use Rattle.world_ports.specs.Streams.{OnlyWrites, StreamView};

use crate::consent::verdict;
use crate::status::RelayStatus;
use child_msg::FromChild;
use child_peer::{SayFault, Words, say};
use std::alloc::Global;
use world_ports::{Sink, SpawnFault, Spawner};

/// Runs the program with the prompt, once, and tells the agent what it says.
pub fn ask<S: Spawner, P: Sink>(
    alloc: Global,
    words: &Words<'_>,
    program: &str,
    prompt: &str,
    spawner: &mut S,
    peer: &mut P,
) -> RelayStatus
    ensures { (whole : Relaying) (start : StreamView) (heard : List ℕ)
        → IsGreeted (plain_words words.now) heard start (P.seen peer.old)
        → Asks whole (plain_words words.now) heard
        (record { program = program.now; word = prompt.now })
        → Ends result whole
        (record { spawner = S.seen spawner.old; peer = start })
        (record { spawner = S.seen spawner.new; peer = P.seen peer.new }) }
{
    let Some(granted) = consult(alloc, program, prompt, spawner) else {
        return RelayStatus::Memory;
    };
    match tell(alloc, words.job, granted, peer) {
        Ok(()) => RelayStatus::Done,
        Err(SayFault::Failed) => RelayStatus::WriteFault,
        Err(SayFault::Memory) => RelayStatus::Memory,
    }
}

// Whether the user consents: not where the program could not be run to its end. `None` where memory ran
// out.
fn consult<S: Spawner>(alloc: Global, program: &str, prompt: &str, spawner: &mut S) -> Option<bool>
    ensures { Consults result (record { program = program.now; word = prompt.now })
        (S.seen spawner.old) (S.seen spawner.new) }
{
    match spawner.run(alloc, program, prompt) {
        Ok(ran) => Some(verdict(ran.status, ran.output.as_slice())),
        Err(SpawnFault::Failed) => Some(false),
        Err(SpawnFault::Memory) => None,
    }
}

fn tell<P: Sink>(alloc: Global, job: u64, granted: bool, peer: &mut P) -> Result<(), SayFault>
    ensures says { Says result (string (from_child_body (verdict_message job granted)))
        (P.seen peer.old) (P.seen peer.new) }
    ensures only { OnlyWrites (P.seen peer.old) (P.seen peer.new) }
{
    if granted {
        say(alloc, &FromChild::Granted { job }, peer)
    } else {
        say(alloc, &FromChild::Denied { job }, peer)
    }
}

//! The relay from its words to its exit status, over any spawner and any connection.

ghost use Rattle.std.specs.Prelude.{◌≡◌, ◌↔◌, map, string_bytes, None};
ghost use Rattle.child_peer.specs.Words.{plain_words};
ghost use Rattle.relay_core.specs.Claims.{Answers, Ends, Relaying};
ghost use Rattle.relay_core.specs.Steps.{IsRelay};
ghost use Rattle.relay_core.specs.Transcript.{hello_frame, program_of};
ghost use Rattle.child_peer.specs.Hearing.{Says};
ghost use Rattle.world_ports.specs.Streams.{OnlyWrites};

use crate::asking::ask;
use crate::hearing::hear_frame;
use crate::prompt::read_prompt;
use crate::status::RelayStatus;
use child_msg::FromChild;
use child_peer::{SayFault, Words, read_words, say};
use frame_core::front_body;
use secret_buf::ScrubBuf;
use std::alloc::Global;
use world_ports::{Sink, Source, Spawner};

/// The relay: `words` are those of the command line behind the program's name, SOCKET JOB TICKET
/// ASKPASS, of which the last is the program that asks the user.
///
/// Says HELLO, waits for the agent's request, runs the program with the prompt as its one word, and tells
/// the agent what the user said. What it sends, which run it makes and how it ends is `transcript_of` of
/// specs/Transcript.antt, and what each status says is in specs/Claims.antt.
pub fn relay_main<S: Spawner, P: Source + Sink>(
    alloc: Global,
    words: &[String],
    spawner: &mut S,
    peer: &mut P,
) -> RelayStatus
    ensures answers { Answers result (map string_bytes words.now)
        (record { spawner = S.seen spawner.old; peer = P.seen peer.old })
        (record { spawner = S.seen spawner.new; peer = P.seen peer.new }) }
    ensures usage { (result ≡ RelayStatus.Usage)
        ↔ (program_of (map string_bytes words.now) ≡ None) }
    ensures unused { result ≡ RelayStatus.Usage
        → (spawner.new ≡ spawner.old) × (peer.new ≡ peer.old) }
{
    let Some(words) = read_words(words) else {
        return RelayStatus::Usage;
    };
    let Some(program) = words.last else {
        return RelayStatus::Usage;
    };
    relay(alloc, &words, program, spawner, peer)
}

fn relay<S: Spawner, P: Source + Sink>(
    alloc: Global,
    words: &Words<'_>,
    program: &str,
    spawner: &mut S,
    peer: &mut P,
) -> RelayStatus
    ensures { (whole : Relaying) → IsRelay (plain_words words.now) program.now whole → Ends result whole
        (record { spawner = S.seen spawner.old; peer = P.seen peer.old })
        (record { spawner = S.seen spawner.new; peer = P.seen peer.new }) }
{
    match greet(alloc, words, peer) {
        Ok(()) => {}
        Err(SayFault::Failed) => return RelayStatus::WriteFault,
        Err(SayFault::Memory) => return RelayStatus::Memory,
    }
    let mut heard = ScrubBuf::new(alloc);
    let body_len = match hear_frame(alloc, &mut heard, peer) {
        Ok(body_len) => body_len,
        Err(status) => return status,
    };
    let Some(prompt) = read_prompt(words.job, front_body(heard.live(), body_len)) else {
        return RelayStatus::BadFrame;
    };
    ask(alloc, words, program, prompt, spawner, peer)
}

// Says HELLO.
fn greet<P: Sink>(alloc: Global, words: &Words<'_>, peer: &mut P) -> Result<(), SayFault>
    ensures says { Says result (hello_frame (plain_words words.now))
        (P.seen peer.old) (P.seen peer.new) }
    ensures only { OnlyWrites (P.seen peer.old) (P.seen peer.new) }
{
    let hello = FromChild::Hello {
        job: words.job,
        ticket: words.ticket,
    };
    say(alloc, &hello, peer)
}

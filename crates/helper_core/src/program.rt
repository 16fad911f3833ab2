//! The program of a helper, over anything that answers, any helper behind and any connection.

ghost use Rattle.std.specs.Prelude.{◌≡◌, ◌↔◌, [], List, ℕ, Option, map, string_bytes, None, MatchOption};
ghost use Rattle.child_peer.specs.Words.{plain_words, words_of};
ghost use Rattle.helper_core.specs.declared.behind.Exchange.{Exchange};
ghost use Rattle.helper_core.specs.Claims.{Answers, Ends, Talk};
ghost use Rattle.helper_core.specs.Routes.{Route};
ghost use Rattle.helper_core.specs.Serving.{IsUnderWay};
ghost use Rattle.helper_core.specs.Transcript.{Replies, greeted};

use crate::answerer::Answerer;
use crate::behind::HelperBehind;
use crate::status::HelperStatus;
use crate::stream::serve;
use child_msg::{FromChild, write_from_child};
use child_peer::{Words, flush, read_words};
use secret_buf::ScrubBuf;
use std::alloc::Global;
use std::sync::Wait;
use world_ports::{Sink, Source};

/// The helper: `words` are those of the command line behind the program's name, SOCKET JOB TICKET and
/// where there is one a word more, which is the caller's matter.
///
/// Says HELLO, and answers the agent's requests in order until the agent ends. What it sends, what it
/// hands on, and how it ends, is `transcript_of` of specs/Transcript.antt, and what each status says is
/// in specs/Claims.antt.
pub fn helper_main<R: Wait, A: Answerer, B: HelperBehind, P: Source + Sink>(
    rt: &R,
    alloc: Global,
    words: &[String],
    answerer: &A,
    behind: &mut B,
    peer: &mut P,
) -> HelperStatus
    ensures answers { Answers result (A.route answerer.now) (map string_bytes words.now)
        (record { behind = B.seen behind.old; peer = P.seen peer.old })
        (record { behind = B.seen behind.new; peer = P.seen peer.new }) }
    ensures usage { (result ≡ HelperStatus.Usage) ↔ (words_of (map string_bytes words.now) ≡ None) }
    ensures unused { result ≡ HelperStatus.Usage → (behind.new ≡ behind.old) × (peer.new ≡ peer.old) }
{
    let Some(words) = read_words(words) else {
        return HelperStatus::Usage;
    };
    if let Some(status) = greet(alloc, &words, peer) {
        return status;
    }
    serve(rt, alloc, answerer, behind, peer)
}

// Says HELLO.
fn greet<P: Sink>(alloc: Global, words: &Words<'_>, peer: &mut P) -> Option<HelperStatus>
    ensures { (route : List ℕ → Route) (talk : Talk) (behind : Option (List Exchange))
        → ((replies : Replies) (stream : List ℕ) → talk replies stream ≡ greeted route (plain_words words.now) replies stream)
        → MatchOption result
        (IsUnderWay route talk
        (record { behind = behind; peer = P.seen peer.old })
        (record { behind = behind; peer = P.seen peer.new }) [])
        (λ status. Ends status talk
        (record { behind = behind; peer = P.seen peer.old })
        (record { behind = behind; peer = P.seen peer.new })) }
{
    let mut out = ScrubBuf::new(alloc);
    let hello = FromChild::Hello {
        job: words.job,
        ticket: words.ticket,
    };
    let Ok(()) = write_from_child(&mut out, &hello) else {
        return Some(HelperStatus::Memory);
    };
    match flush(&mut out, peer) {
        Ok(()) => None,
        Err(_) => Some(HelperStatus::WriteFault),
    }
}

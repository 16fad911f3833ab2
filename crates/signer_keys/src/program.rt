//! The program over any helper behind and any connection.

ghost use Rattle.std.specs.Prelude.{◌≡◌, ◌↔◌, ℕ, List, map, string_bytes, None, Ok, true};
ghost use Rattle.child_msg.specs.Messages.{Sign, Signed, Signing};
ghost use Rattle.child_msg.specs.Reading.{to_child_of};
ghost use Rattle.child_peer.specs.Words.{words_of};
ghost use Rattle.helper_core.specs.Claims.{Answers};
ghost use Rattle.helper_core.specs.Routes.{Answered};
ghost use Rattle.signer_keys.specs.Answers.{route_of};
ghost use Rattle.signer_keys.specs.Laws.{accepted_by};

use crate::keys::SignerKeys;
use helper_core::{HelperBehind, HelperStatus, helper_main};
use std::alloc::Global;
use std::sync::Wait;
use world_ports::{Sink, Source};

/// The helper: `words` are those of the command line behind the program's name, SOCKET JOB TICKET and
/// where there is one a word more, which names the program of the helper behind.
///
/// What becomes of a request is `route_of` of specs/Answers.antt, a function of the request alone: it is
/// answered where its key, and the authority of a certificate to verify, is of a type that is known here;
/// every other one goes to the helper behind, once and unchanged. What is sent, in which order, and how it ends is
/// `transcript_of` of helper_core. Each signature among the answers verifies: the public key of its request's blob accepts
/// it as one of the request's message.
pub fn signer_main<R: Wait, B: HelperBehind, P: Source + Sink>(
    rt: &R,
    alloc: Global,
    words: &[String],
    keys: &SignerKeys,
    behind: &mut B,
    peer: &mut P,
) -> HelperStatus
    ensures answers { Answers result route_of (map string_bytes words.now)
        (record { behind = B.seen behind.old; peer = P.seen peer.old })
        (record { behind = B.seen behind.new; peer = P.seen peer.new }) }
    ensures verifies { (body : List ℕ) (request : Signing) (text : List ℕ) → to_child_of body ≡ Ok (Sign request)
        → route_of body ≡ Answered (Signed request.ask text)
        → accepted_by request.blob request.message text ≡ Ok true }
    ensures usage { (result ≡ HelperStatus.Usage) ↔ (words_of (map string_bytes words.now) ≡ None) }
    ensures unused { result ≡ HelperStatus.Usage → (behind.new ≡ behind.old) × (peer.new ≡ peer.old) }
{
    helper_main(rt, alloc, words, keys, behind, peer)
}

//! Reads from a connection until one whole frame has come.

ghost use Rattle.std.specs.Prelude.{◌≡◌};
ghost use Rattle.terms_core.specs.Hearing.{HearsFrame, end_of};
ghost use Rattle.world_ports.specs.Streams.{OnlyReads};

use crate::fault::HearStop;
use child_peer::{HearFault, Room};
use frame_core::{LONGEST_BODY, Look, look};
use secret_buf::ScrubBuf;
use world_ports::{Pulled, Source};

/// Reads until a whole frame stands in front of what was heard, and gives the length of its body.
pub fn hear_frame<P: Source>(
    room: &mut Room,
    heard: &mut ScrubBuf,
    peer: &mut P,
) -> Result<u32, HearStop>
    ensures hears { HearsFrame result heard.old.live heard.new.live
        (P.seen peer.old) (P.seen peer.new) }
    ensures only { OnlyReads (P.seen peer.old) (P.seen peer.new) }
{
    'pieces: loop {
        match look(heard.live(), LONGEST_BODY) {
            Look::Whole { body } => return Ok(body),
            Look::Bad { .. } => return Err(HearStop::Bad),
            Look::More => match room.hear(peer, heard) {
                Ok(Pulled::Bytes(_)) => {}
                Ok(Pulled::End) => return Err(end(heard)),
                Err(HearFault::Failed) => return Err(HearStop::Failed),
                Err(HearFault::Memory) => return Err(HearStop::Memory),
            },
        }
    }
}

// An end is between two frames where nothing was heard of the next.
fn end(heard: &ScrubBuf) -> HearStop
    ensures { result ≡ end_of heard.now.live }
{
    if heard.live().is_empty() {
        HearStop::End
    } else {
        HearStop::Torn
    }
}

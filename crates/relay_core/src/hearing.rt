//! Reads from the agent until one whole frame has come.

ghost use Rattle.std.specs.Prelude.{◌≡◌, ◌<◌, [], length, IfNone, MatchOption};
ghost use Rattle.relay_core.specs.Steps.{HearsFrame};
ghost use Rattle.world_ports.specs.Streams.{OnlyReads};

use crate::status::RelayStatus;
use child_msg::LONGEST_TO_CHILD;
use child_peer::{HearFault, Room};
use frame_core::{Look, look};
use secret_buf::ScrubBuf;
use std::alloc::Global;
use world_ports::{Pulled, Source};

/// Reads until a whole frame stands in front, and gives the length of its body.
pub fn hear_frame<P: Source>(
    alloc: Global,
    heard: &mut ScrubBuf,
    peer: &mut P,
) -> Result<u32, RelayStatus>
    requires { heard.old.live ≡ [] }
    ensures hears { HearsFrame result heard.new.live (P.seen peer.old) (P.seen peer.new) }
    ensures only { OnlyReads (P.seen peer.old) (P.seen peer.new) }
{
    let Ok(mut room) = Room::new(alloc) else {
        return Err(RelayStatus::Memory);
    };
    'pieces: loop {
        match look(heard.live(), LONGEST_TO_CHILD) {
            Look::Whole { body } => return Ok(body),
            Look::Bad { .. } => return Err(RelayStatus::BadFrame),
            Look::More => match room.hear(peer, heard) {
                Ok(Pulled::Bytes(_)) => {}
                Ok(Pulled::End) => return Err(RelayStatus::TornEnd),
                Err(HearFault::Failed) => return Err(RelayStatus::ReadFault),
                Err(HearFault::Memory) => return Err(RelayStatus::Memory),
            },
        }
    }
}

//! Reads from the agent, through room that holds nothing between them.

ghost use Rattle.std.specs.Prelude.{◌≡◌};
ghost use Rattle.child_peer.specs.Hearing.{Hears};
ghost use Rattle.world_ports.specs.Streams.{OnlyReads};

use crate::fault::HearFault;
use secret_buf::ScrubBuf;
use std::alloc::{AllocError, Global};
use std::marker::Model;
use wiped_bytes::WipedBytes;
use world_ports::{Pulled, Source};

/// How many bytes a read may bring (ours).
const SIZE: usize = 4096;

/// Room for reads. It holds nothing between them.
#[derive(Drop)]
pub struct Room {
    bytes: WipedBytes,
}

impl Model for Room {
    ghost use Rattle.std.specs.Prelude.{List, ℕ, ◌≡◌, length};
    ghost use Rattle.secret_buf.specs.Buffers.{IsWiped};

    ghost Value = { List ℕ };

    ghost view = { λ room. room.bytes };

    ghost invariant = { λ room. (length room.bytes ≡ 4096) × IsWiped room.bytes };
}

impl Room {
    pub fn new(alloc: Global) -> Result<Room, AllocError> {
        let bytes = WipedBytes::zeros(alloc, SIZE)?;
        Ok(Room { bytes })
    }

    /// Reads once, and appends what was read to `heard`. Takes memory before it reads.
    pub fn hear<P: Source>(
        &mut self,
        peer: &mut P,
        heard: &mut ScrubBuf,
    ) -> Result<Pulled, HearFault>
        ensures hears { Hears result heard.old.live heard.new.live
            (P.seen peer.old) (P.seen peer.new) }
        ensures only { OnlyReads (P.seen peer.old) (P.seen peer.new) }
    {
        heard.reserve(SIZE)?;
        let pulled = peer.read(self.bytes.as_mut_slice());
        if let Ok(Pulled::Bytes(n)) = pulled {
            heard.push_reserved(&self.bytes.as_slice()[..n as usize]);
        }
        self.bytes.as_mut_slice().fill(0);
        Ok(pulled?)
    }
}

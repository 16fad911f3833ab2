//! Room for reads.

ghost use Rattle.std.specs.Prelude.{◌≡◌, ◌<◌, IfOk, OnOk, length};
ghost use Rattle.world_ports.specs.Worlds.{read_room};
ghost use Rattle.ready_loop.specs.Rooms.{IsWiped};

use std::alloc::{AllocError, Global};
use world_ports::READ_ROOM;

/// Room for a read, zero whenever none is under way. It is taken by the first read.
#[derive(Drop)]
pub struct Room {
    alloc: Global,
    pub bytes: Vec<u8>,
    ghost zero: { IsWiped bytes.items },
    ghost size: { 0 < length bytes.items → length bytes.items ≡ read_room },
}

// Zeros, this many.
fn zeros(alloc: Global, size: usize) -> Result<Vec<u8>, AllocError>
    ensures size { IfOk result (λ bytes. length bytes.items ≡ size) }
    ensures zero { IfOk result (λ bytes. IsWiped bytes.items) }
{
    vec![in alloc; 0; size]
}

impl Room {
    /// Takes no memory.
    pub fn new(alloc: Global) -> Room {
        Room {
            alloc,
            bytes: Vec::new(alloc),
        }
    }

    // The room is there from here on.
    #[inline(always)]
    pub fn take(&mut self) -> Result<(), AllocError>
        ensures { OnOk result (length self.new.bytes.items ≡ read_room) }
    {
        if self.bytes.is_empty() {
            self.bytes = zeros(self.alloc, READ_ROOM)?;
        }
        Ok(())
    }
}

//! What stands for an agent that cannot be reached: each call on it fails, and is counted.

ghost use Rattle.std.specs.Prelude.{None};

use world_ports::{Fault, Pulled, Sink, Source, Stream};

/// What stands for the agent where there is no connection to it: each call fails, and is counted.
#[derive(Drop)]
pub struct NoPeer {
    read_faults: u64,
    write_faults: u64,
}

impl NoPeer {
    pub fn new() -> NoPeer {
        NoPeer {
            read_faults: 0,
            write_faults: 0,
        }
    }
}

impl Stream for NoPeer {
    ghost seen = { λ p. record {
      taken = None;
      left = None;
      written = None;
      read_faults = p.read_faults;
      write_faults = p.write_faults;
    } };
}

impl Source for NoPeer {
    fn read(&mut self, _room: &mut [u8]) -> Result<Pulled, Fault> {
        self.read_faults = self.read_faults.saturating_add(1);
        Err(Fault)
    }
}

impl Sink for NoPeer {
    fn write(&mut self, _bytes: &[u8]) -> Result<u32, Fault> {
        self.write_faults = self.write_faults.saturating_add(1);
        Err(Fault)
    }
}

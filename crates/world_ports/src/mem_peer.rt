//! A peer for tests, which is read from a slice and written to memory.

ghost use Rattle.std.specs.Prelude.{◌≡◌, Some};
ghost use Rattle.world_ports.specs.Memory.{source_view};

use crate::{Fault, Pulled, Sink, SliceSource, Source, Stream, VecSink};

/// A peer in memory: what it says is read from its source, and its sink keeps what is said to it.
#[derive(Drop)]
pub struct MemPeer<'a> {
    source: SliceSource<'a>,
    sink: VecSink,
}

impl<'a> MemPeer<'a> {
    pub fn new(source: SliceSource<'a>, sink: VecSink) -> MemPeer<'a>
        ensures source { result.source ≡ source.entry }
        ensures sink { result.sink ≡ sink }
    {
        MemPeer { source, sink }
    }

    /// All that was written to it.
    pub fn written(&self) -> &[u8]
        ensures { result.now ≡ self.now.sink.written }
    {
        self.sink.written()
    }
}

impl Stream for MemPeer<'_> {
    ghost seen = { λ p. record (source_view p.source) {
      written = Some p.sink.written;
      write_faults = p.sink.calls.failed;
    } };
}

impl Source for MemPeer<'_> {
    fn read(&mut self, room: &mut [u8]) -> Result<Pulled, Fault> {
        self.source.read(room)
    }
}

impl Sink for MemPeer<'_> {
    fn write(&mut self, bytes: &[u8]) -> Result<u32, Fault> {
        self.sink.write(bytes)
    }
}

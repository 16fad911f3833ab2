//! An input that counts what is read of it.

ghost use Rattle.world_ports.specs.Memory.{source_view};

use world_ports::{Fault, Pulled, SliceSource, Source, Stream};

/// A source of a slice, how many bytes it gave, how often it was read behind its end, and whether it told that.
#[derive(Drop)]
pub(crate) struct Input<'a> {
    source: SliceSource<'a>,
    pub(crate) taken: usize,
    pub(crate) late_reads: u64,
    pub(crate) ended: bool,
}

impl<'a> Input<'a> {
    pub(crate) fn new(source: SliceSource<'a>) -> Input<'a> {
        Input {
            source,
            taken: 0,
            late_reads: 0,
            ended: false,
        }
    }
}

impl Stream for Input<'_> {
    ghost seen = { λ input. source_view input.source };
}

impl Source for Input<'_> {
    fn read(&mut self, room: &mut [u8]) -> Result<Pulled, Fault> {
        if self.ended {
            self.late_reads = self.late_reads.saturating_add(1);
        }
        let pulled = self.source.read(room)?;
        match pulled {
            Pulled::Bytes(count) => self.taken = self.taken.saturating_add(count as usize),
            Pulled::End => self.ended = true,
        }
        Ok(pulled)
    }
}

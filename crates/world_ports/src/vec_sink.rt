//! A sink for tests, which keeps what is written, and fails where it is told to.

ghost use Rattle.std.specs.Prelude.{◌≡◌, ◌↔◌, ◌⊎◌, ◌+◌, ◌-◌, ◌<◌, ◌≤◌, ◌^◌, IsErr, IfOk, [], length, min, vec_len, vec_capacity, is_err};
ghost use Rattle.world_ports.specs.Causes.{HasCause};
ghost use Rattle.world_ports.specs.Memory.{SinkState, IsNextListed, after_call, sink_view};
ghost use Rattle.world_ports.specs.Streams.{OnlyWrites, Writes};

use crate::calls::Calls;
use crate::{Fault, Sink, Stream};
use std::alloc::{AllocError, Global};
use std::marker::Model;

/// A sink that keeps what is written, in memory that it takes when it is made.
#[derive(Drop)]
pub struct VecSink {
    written: Vec<u8>,
    room: u32,
    cut: u32,
    calls: Calls,
}

impl Model for VecSink {
    ghost Value = { SinkState };

    ghost view = { λ s. record {
      written = s.written.items;
      room = s.room;
      cut = s.cut;
      calls = s.calls;
    } };

    ghost invariant = { λ s. (vec_len s.written + s.room ≤ vec_capacity s.written) × (0 < s.cut) };
}

impl VecSink {
    /// Takes the memory for `room` bytes. A piece that is longer than what is left of them fails.
    /// So do the calls whose numbers, from 1, stand in `failing`.
    pub fn new(alloc: Global, room: u32, failing: Vec<u64>) -> Result<VecSink, AllocError>
        ensures { IfOk result (λ sink. sink ≡ record {
          written = [];
          room = room;
          cut = 2 ^ 32 - 1;
          calls = record { failing = failing.items; made = 0; failed = 0 };
        }) }
    {
        VecSink::with_cut(alloc, room, u32::MAX, failing)
    }

    /// As `new`, but a write takes at most `cut` bytes of its piece.
    pub fn with_cut(
        alloc: Global,
        room: u32,
        cut: u32,
        failing: Vec<u64>,
    ) -> Result<VecSink, AllocError>
        requires { 0 < cut }
        ensures { IfOk result (λ sink. sink ≡ record {
          written = [];
          room = room;
          cut = cut;
          calls = record { failing = failing.items; made = 0; failed = 0 };
        }) }
    {
        Ok(VecSink {
            written: Vec::with_capacity(alloc, room as usize)?,
            room,
            cut,
            calls: Calls::new(failing),
        })
    }

    /// All that was written.
    pub fn written(&self) -> &[u8]
        ensures { result.now ≡ self.now.written }
    {
        &self.written
    }
}

impl Stream for VecSink {
    ghost seen = { sink_view };
}

impl Sink for VecSink {
    fn write(&mut self, bytes: &[u8]) -> Result<u32, Fault>
        requires { 0 < length bytes.now }
        ensures writes { Writes result bytes.now (sink_view self.old) (sink_view self.new) }
        ensures cause { HasCause self.old.calls.failed self.new.calls.failed result }
        ensures fails { IsErr result
            ↔ (IsNextListed self.old.calls ⊎ self.old.room < length bytes.now) }
        ensures value { IfOk result (λ n. n ≡ min self.old.cut (length bytes.now)) }
        ensures room { self.new.room + length self.new.written
            ≡ self.old.room + length self.old.written }
        ensures calls { self.new.calls ≡ after_call (is_err result) self.old.calls }
        ensures kept { self.new.cut ≡ self.old.cut }
        ensures only { OnlyWrites (sink_view self.old) (sink_view self.new) }
    {
        self.calls.begin(bytes.len() > self.room as usize)?;
        let n = bytes.len().min(self.cut as usize);
        // The memory is there since `with_cut`.
        if self.written.extend_from_slice(&bytes[..n]).is_err() {
            unreachable!()
        }
        self.room -= n as u32;
        Ok(n as u32)
    }
}

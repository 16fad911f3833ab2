//! A source for tests, which gives a slice's bytes in pieces, and fails where it is told to.

ghost use Rattle.std.specs.Prelude.{◌≡◌, ◌↔◌, ◌<◌, ◌≤◌, IsErr, IfOk, [], length, take, drop, is_err};
ghost use Rattle.world_ports.specs.Causes.{HasCause};
ghost use Rattle.world_ports.specs.Memory.{SourceState, IsNextListed, after_call, read_len, pulled_of, source_view};
ghost use Rattle.world_ports.specs.Streams.{OnlyReads, Reads};

use crate::calls::Calls;
use crate::{Fault, Pulled, Source, Stream};
use std::marker::Model;

/// A source that gives the bytes of a slice, so many a call at the most.
#[derive(Drop)]
pub struct SliceSource<'a> {
    bytes: &'a [u8],
    at: usize,
    cut: u32,
    calls: Calls,
}

impl<'a> Model for SliceSource<'a> {
    ghost Value = { SourceState };

    ghost view = { λ s. record {
      taken = take s.at s.bytes.now;
      left = drop s.at s.bytes.now;
      cut = s.cut;
      calls = s.calls;
    } };

    ghost invariant = { λ s. (s.at ≤ length s.bytes.now) × (0 < s.cut) };
}

impl<'a> SliceSource<'a> {
    /// Gives at most `cut` bytes a call. The calls whose numbers, from 1, stand in `failing` fail.
    pub fn new(bytes: &'a [u8], cut: u32, failing: Vec<u64>) -> SliceSource<'a>
        requires { 0 < cut }
        ensures { result ≡ record {
          taken = [];
          left = bytes.now;
          cut = cut;
          calls = record { failing = failing.items; made = 0; failed = 0 };
        } }
    {
        SliceSource {
            bytes,
            at: 0,
            cut,
            calls: Calls::new(failing),
        }
    }
}

impl Stream for SliceSource<'_> {
    ghost seen = { source_view };
}

impl Source for SliceSource<'_> {
    fn read(&mut self, room: &mut [u8]) -> Result<Pulled, Fault>
        requires { 0 < length room.old }
        ensures reads { Reads result room.new (source_view self.old) (source_view self.new) }
        ensures cause { HasCause self.old.calls.failed self.new.calls.failed result }
        ensures fails { IsErr result ↔ IsNextListed self.old.calls }
        ensures value { IfOk result (λ pulled.
            pulled ≡ pulled_of (read_len (length room.old) self.old)) }
        ensures calls { self.new.calls ≡ after_call (is_err result) self.old.calls }
        ensures kept { self.new.cut ≡ self.old.cut }
        ensures only { OnlyReads (source_view self.old) (source_view self.new) }
    {
        self.calls.begin(false)?;
        let left = &self.bytes[self.at..];
        let n = (self.cut as usize).min(room.len().min(left.len()));
        room[..n].copy_from_slice(&left[..n]);
        self.at += n;
        Ok(pulled(n as u32))
    }
}

fn pulled(n: u32) -> Pulled
    ensures { result ≡ pulled_of n }
{
    match n {
        0 => Pulled::End,
        _ => Pulled::Bytes(n),
    }
}

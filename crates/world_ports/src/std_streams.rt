//! Sources and sinks over std's `Read` and `Write`, which count what fails.

ghost use Rattle.std.specs.Prelude.{◌≡◌, ◌≢◌, ◌<◌, None, IfOk, IfErr, length, take, is_err};
ghost use Rattle.std.specs.Io.{ReadsAtMost, WritesAtMost};
ghost use Rattle.std.specs.Io.KnownBytes.{Appends, Keeps, ReadConsumes};
ghost use Rattle.std.specs.IoError.{error_kind};
ghost use Rattle.world_ports.specs.Causes.{HasCause, count_after};
ghost use Rattle.world_ports.specs.Streams.{Reads, TakesFront, reading_view, writing_view};

use crate::{Fault, Pulled, Sink, Source, Stream};
use std::io::{Error, ErrorKind, Read, Result as IoResult, Write};

/// A reader, as standard input, that tells nothing of its bytes.
///
/// A read that a signal interrupts is tried again.
#[derive(Drop)]
pub struct Reading<R> {
    reader: R,
    faults: u64,
}

/// A writer, as standard output, that tells nothing of its bytes.
///
/// What it takes is flushed in the same call, and a write or a flush that a signal interrupts is
/// tried again. Where the flush fails, the writer may have the bytes although the write failed.
#[derive(Drop)]
pub struct Writing<W> {
    writer: W,
    faults: u64,
}

impl<R: Read> Reading<R> {
    pub fn new(reader: R) -> Self
        ensures { (result.reader ≡ reader) × (result.faults ≡ 0) }
    {
        Reading { reader, faults: 0 }
    }
}

impl<W: Write> Writing<W> {
    pub fn new(writer: W) -> Self
        ensures { (result.writer ≡ writer) × (result.faults ≡ 0) }
    {
        Writing { writer, faults: 0 }
    }
}

impl<R: Read> Stream for Reading<R> {
    ghost seen = { λ s. reading_view (R.remaining s.reader) s.faults };
}

impl<W: Write> Stream for Writing<W> {
    ghost seen = { λ s. writing_view None s.faults };
}

// The most that is offered to one call, so that its answer fits a u32.
const MAX_PIECE: usize = u32::MAX as usize;

impl<R: Read> Source for Reading<R> {
    fn read(&mut self, room: &mut [u8]) -> Result<Pulled, Fault>
        requires { 0 < length room.old }
        ensures reads { Reads result room.new
            (reading_view (R.remaining self.old.reader) self.old.faults)
            (reading_view (R.remaining self.new.reader) self.new.faults) }
        ensures cause { HasCause self.old.faults self.new.faults result }
        ensures faults { self.new.faults ≡ count_after (is_err result) self.old.faults }
    {
        let len = room.len().min(MAX_PIECE);
        match read_again(&mut self.reader, &mut room[..len]) {
            Ok(0) => Ok(Pulled::End),
            Ok(n) => Ok(Pulled::Bytes(n as u32)),
            Err(_) => {
                self.faults = self.faults.saturating_add(1);
                Err(Fault)
            }
        }
    }
}

impl<W: Write> Sink for Writing<W> {
    fn write(&mut self, bytes: &[u8]) -> Result<u32, Fault>
        requires { 0 < length bytes.now }
        ensures writes { IfOk result (λ n. TakesFront n bytes.now
            (writing_view (W.contents self.old.writer) self.old.faults)
            (writing_view (W.contents self.new.writer) self.new.faults)) }
        ensures cause { HasCause self.old.faults self.new.faults result }
        ensures faults { self.new.faults ≡ count_after (is_err result) self.old.faults }
    {
        let len = bytes.len().min(MAX_PIECE);
        match write_through(&mut self.writer, &bytes[..len]) {
            Ok(n) if n > 0 => Ok(n as u32),
            _ => {
                self.faults = self.faults.saturating_add(1);
                Err(Fault)
            }
        }
    }
}

// One read, tried again while a signal interrupts it.
fn read_again<R: Read>(reader: &mut R, room: &mut [u8]) -> IoResult<usize>
    ensures bound { ReadsAtMost result room.new }
    ensures bytes { ReadConsumes (R.remaining reader.old) (R.remaining reader.new) result room.new }
    ensures retried { IfErr result (λ error. error_kind error ≢ ErrorKind.Interrupted) }
{
    for _ in 0..u64::MAX {
        match reader.read(room) {
            Ok(n) => return Ok(n),
            Err(error) => {
                if error.kind() != ErrorKind::Interrupted {
                    return Err(error);
                }
            }
        }
    }
    Err(Error::from(ErrorKind::TimedOut))
}

// One write, tried again while a signal interrupts it, and then a flush.
fn write_through<W: Write>(writer: &mut W, bytes: &[u8]) -> IoResult<usize>
    ensures bound { WritesAtMost result bytes.now }
    ensures bytes { IfOk result (λ n. Appends (W.contents writer.old) (W.contents writer.new)
        (take n bytes.now)) }
    ensures retried { IfErr result (λ error. error_kind error ≢ ErrorKind.Interrupted) }
{
    for _ in 0..u64::MAX {
        match writer.write(bytes) {
            Ok(n) => {
                flush_again(writer)?;
                return Ok(n);
            }
            Err(error) => {
                if error.kind() != ErrorKind::Interrupted {
                    return Err(error);
                }
            }
        }
    }
    Err(Error::from(ErrorKind::TimedOut))
}

fn flush_again<W: Write>(writer: &mut W) -> IoResult<()>
    ensures bytes { Keeps (W.contents writer.old) (W.contents writer.new) }
    ensures retried { IfErr result (λ error. error_kind error ≢ ErrorKind.Interrupted) }
{
    for _ in 0..u64::MAX {
        match writer.flush() {
            Ok(()) => return Ok(()),
            Err(error) => {
                if error.kind() != ErrorKind::Interrupted {
                    return Err(error);
                }
            }
        }
    }
    Err(Error::from(ErrorKind::TimedOut))
}

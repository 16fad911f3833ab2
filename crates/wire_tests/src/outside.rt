//! Tests of sources, sinks and peers: cut, refused and failed reads and writes.

ghost use Rattle.std.specs.Prelude.{◌≡◌, ◌⊎◌, ◌<◌, IfNone, IfSome, length, take};
ghost use Rattle.std.specs.Io.KnownBytes.{Appends, IsAtEnd};
ghost use Rattle.world_ports.specs.Causes.{Rose};

mod script_world;
mod tools;

use std::io::{self, Error, ErrorKind, Read, Write};
use std::test::Fail;
use world_ports::*;

// What code over any source learns of one read.
fn pull<I: Source>(input: &mut I, room: &mut [u8]) -> Option<u32>
    requires { 0 < length room.old }
    ensures bytes { IfSome result (λ n. Appends (I.seen input.old).taken (I.seen input.new).taken
        (take n room.new)) }
    ensures none { IfNone result (Rose (I.seen input.old).read_faults (I.seen input.new).read_faults
        ⊎ IsAtEnd (I.seen input.new).left) }
{
    match input.read(room) {
        Ok(Pulled::Bytes(n)) => Some(n),
        Ok(Pulled::End) | Err(_) => None,
    }
}

// What code over any sink learns of one write.
fn push<O: Sink>(output: &mut O, bytes: &[u8]) -> Option<u32>
    requires { 0 < length bytes.now }
    ensures bytes { IfSome result (λ n. Appends (O.seen output.old).written (O.seen output.new).written
        (take n bytes.now)) }
    ensures none { IfNone result (Rose (O.seen output.old).write_faults (O.seen output.new).write_faults) }
{
    let Ok(n) = output.write(bytes) else {
        return None;
    };
    Some(n)
}

#[test]
fn a_source_gives_all_bytes_at_each_cut(rt: HostRuntime) -> Result<(), Fail> {
    let alloc = rt.alloc();
    for (cut, want) in [(1, 5), (2, 3), (3, 2)] {
        let mut source = SliceSource::new(b"abcde", cut, Vec::new(alloc));
        let mut all = Vec::new(alloc);
        let mut reads = 0u32;
        let mut room = [0; 4];
        for _ in 0..9 {
            let Ok(Pulled::Bytes(n)) = source.read(&mut room) else {
                break;
            };
            all.extend_from_slice(&room[..n as usize])?;
            reads = reads.saturating_add(1);
        }
        assert_eq!(rt; all.as_slice(), b"abcde".as_slice(), "at {cut}");
        assert_eq!(rt; reads, want, "at {cut}");
        assert_eq!(rt; source.read(&mut room), Ok(Pulled::End), "at {cut}");
    }
    Ok(())
}

#[test]
fn listed_reads_fail_and_lose_nothing(rt: HostRuntime) -> Result<(), Fail> {
    let failing = [1, 3].to_vec(rt.alloc())?;
    let mut source = SliceSource::new(b"abc", 2, failing);
    let mut room = [0; 9];
    assert_eq!(rt; source.read(&mut room), Err(Fault));
    assert_eq!(rt; pull(&mut source, &mut room), Some(2));
    assert_eq!(rt; pull(&mut source, &mut room), None);
    assert_eq!(rt; source.read(&mut room), Ok(Pulled::Bytes(1)));
    assert_eq!(rt; &room[..2], b"cb".as_slice());
    assert_eq!(rt; source.read(&mut room), Ok(Pulled::End));
    Ok(())
}

#[test]
fn a_sink_refuses_what_has_no_room(rt: HostRuntime) -> Result<(), Fail> {
    let alloc = rt.alloc();
    let mut sink = VecSink::new(alloc, 5, [2].to_vec(alloc)?)?;
    assert_eq!(rt; sink.write(b"abc"), Ok(3));
    assert_eq!(rt; sink.write(b"d"), Err(Fault));
    assert_eq!(rt; push(&mut sink, b"def"), None);
    assert_eq!(rt; push(&mut sink, b"de"), Some(2));
    assert_eq!(rt; sink.written(), b"abcde".as_slice());
    Ok(())
}

#[test]
fn a_short_sink_takes_the_front_of_a_piece(rt: HostRuntime) -> Result<(), Fail> {
    let alloc = rt.alloc();
    let mut sink = VecSink::with_cut(alloc, 9, 2, Vec::new(alloc))?;
    assert_eq!(rt; sink.write(b"abc"), Ok(2));
    assert_eq!(rt; write_all(&mut sink, b"cdefg"), Ok(()));
    assert_eq!(rt; sink.written(), b"abcdefg".as_slice());
    Ok(())
}

#[test]
fn a_peer_is_read_and_written(rt: HostRuntime) -> Result<(), Fail> {
    let alloc = rt.alloc();
    let source = SliceSource::new(b"hello", 9, Vec::new(alloc));
    let sink = VecSink::new(alloc, 9, Vec::new(alloc))?;
    let mut peer = MemPeer::new(source, sink);
    let mut room = [0; 9];
    assert_eq!(rt; pull(&mut peer, &mut room), Some(5));
    assert_eq!(rt; push(&mut peer, b"bye"), Some(3));
    assert_eq!(rt; peer.written(), b"bye".as_slice());
    Ok(())
}

// Its calls in turn: interrupted, one byte, no byte, and then failures.
#[derive(Drop)]
struct Flaky {
    calls: u32,
    flushes: u32,
}

impl Flaky {
    fn turn(&mut self) -> io::Result<usize> {
        self.calls = self.calls.saturating_add(1);
        match self.calls {
            1 => Err(Error::from(ErrorKind::Interrupted)),
            2 => Ok(1),
            3 => Ok(0),
            _ => Err(Error::from(ErrorKind::BrokenPipe)),
        }
    }
}

impl Read for Flaky {
    fn read(&mut self, room: &mut [u8]) -> io::Result<usize> {
        let n = self.turn()?.min(room.len());
        room[..n].fill(b'x');
        Ok(n)
    }
}

impl Write for Flaky {
    fn write(&mut self, bytes: &[u8]) -> io::Result<usize> {
        Ok(self.turn()?.min(bytes.len()))
    }

    fn flush(&mut self) -> io::Result<()> {
        self.flushes = self.flushes.saturating_add(1);
        match self.flushes {
            1 => Err(Error::from(ErrorKind::Interrupted)),
            _ => Ok(()),
        }
    }
}

#[test]
fn an_interrupted_read_is_tried_again(rt: HostRuntime) {
    let mut input = Reading::new(Flaky {
        calls: 0,
        flushes: 0,
    });
    let mut room = [0; 3];
    assert_eq!(rt; input.read(&mut room), Ok(Pulled::Bytes(1)));
    assert_eq!(rt; room, *b"x\0\0");
    assert_eq!(rt; input.read(&mut room), Ok(Pulled::End));
    assert_eq!(rt; input.read(&mut room), Err(Fault));
}

#[test]
fn a_write_is_flushed_and_one_that_takes_nothing_is_a_fault(rt: HostRuntime) {
    let mut writer = Flaky {
        calls: 0,
        flushes: 0,
    };
    {
        let mut output = Writing::new(&mut writer);
        assert_eq!(rt; output.write(b"abc"), Ok(1));
        assert_eq!(rt; output.write(b"bc"), Err(Fault));
        assert_eq!(rt; output.write(b"bc"), Err(Fault));
    }
    // Two after the first write, of which the first was interrupted, and one after the second.
    assert_eq!(rt; writer.flushes, 3);
}

#[test]
fn standard_output_is_a_sink(rt: HostRuntime) {
    let mut output = Writing::new(rt.stdout());
    assert_eq!(rt; output.write(b"a line\n"), Ok(7));
}

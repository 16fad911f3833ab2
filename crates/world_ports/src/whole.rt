//! Writes all bytes to a sink, piece by piece, until one write fails.

ghost use Rattle.std.specs.Io.KnownBytes.{Appends};
ghost use Rattle.std.specs.Prelude.{OnErr, OnOk};
ghost use Rattle.world_ports.specs.Causes.{HasCause};
ghost use Rattle.world_ports.specs.Streams.{OnlyWrites, WritesPart};

use crate::{Fault, Sink};

/// Writes all of `bytes`, in as many writes as the sink wants. Stops at the first that fails.
pub fn write_all<O: Sink>(output: &mut O, bytes: &[u8]) -> Result<(), Fault>
    ensures ok { OnOk result
        (Appends (O.seen output.old).written (O.seen output.new).written bytes.now) }
    ensures err { OnErr result (WritesPart bytes.now (O.seen output.old) (O.seen output.new)) }
    ensures cause { HasCause
        (O.seen output.old).write_faults (O.seen output.new).write_faults result }
    ensures only { OnlyWrites (O.seen output.old) (O.seen output.new) }
{
    let mut rest = bytes;
    'pieces: while !rest.is_empty() {
        let n = output.write(rest)?;
        rest = &rest[n as usize..];
    }
    Ok(())
}

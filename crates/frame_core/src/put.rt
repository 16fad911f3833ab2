//! The frame of a message behind a buffer's bytes.

ghost use Rattle.std.specs.Prelude.{◌≡◌, ◌+◌, ◌^◌, ◌<◌, ◌≤◌, ◌++◌, length, IsOk, OnErr, OnOk};
ghost use Rattle.wire_text.specs.Wire.{string};
ghost use Rattle.secret_buf.specs.Buffers.{KeepsRoom};

use crate::fields::push_string;
use secret_buf::ScrubBuf;
use std::alloc::AllocError;

/// Appends the frame of `body`: its length in four bytes, and then the body.
///
/// An empty body may be put, though a look calls its frame bad.
pub fn put_frame(out: &mut ScrubBuf, body: &[u8]) -> Result<(), AllocError>
    requires { length body.now < 2 ^ 32 }
    ensures ok { OnOk result (out.new.live ≡ out.old.live ++ string body.now) }
    ensures err { OnErr result (out.new ≡ out.old) }
    ensures enough { 4 + length body.now ≤ out.old.spare → IsOk result }
    ensures keeps_room { KeepsRoom out.old out.new }
{
    out.reserve(4 + body.len())?;
    push_string(out, body);
    Ok(())
}

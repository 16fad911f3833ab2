//! Signing that clears its traces. No clause speaks of the stack or of registers.

ghost use Rattle.std.specs.Prelude.{◌≡◌, ◌++◌, OnOk};
ghost use Rattle.child_msg.specs.ChildFrames.{from_child_body};
ghost use Rattle.signer_keys.specs.Signing.{signature_for, signed_by, signing_of};
ghost use Rattle.wire_text.specs.Wire.{string};

use crate::answers::put_signature;
use crate::keys::SignerKeys;
use crate::request::Request;
use p256_curve::Point;
use secret_buf::ScrubBuf;
use std::alloc::AllocError;

/// Several times what a signature takes of the stack, in bytes.
const DEPTH: usize = 65536;

/// A descriptor that no file has, so that the system refuses to write and does nothing else.
const NO_FILE: i32 = -1;

/// `put_signature`. Then it puts zeros over the stack below its caller, where signing had the private numbers and what
/// came of them, and public numbers into the registers. That nothing stays isn't proved.
#[inline(never)]
pub fn put_erased(
    keys: &SignerKeys,
    request: &Request<'_>,
    out: &mut ScrubBuf,
) -> Result<(), AllocError>
    ensures { OnOk result (out.new.live ≡ out.old.live ++ string (from_child_body
        (signed_by request.now.ask (signature_for (signing_of request.now))))) }
{
    // It is called at two places: Rattle's own compiler inlines a function that is called at one, and
    // what this one leaves would lie in a frame that is in use while the stack is cleared.
    let put = if request.message.is_empty() {
        put_signature(keys, request, out)
    } else {
        put_signature(keys, request, out)
    };
    use_registers();
    clear_stack();
    put
}

// Puts numbers that are public into the registers that multiplications use: a sum of points.
#[inline(never)]
fn use_registers() -> isize {
    let point = Point::base().add(&Point::base());
    libc::write(NO_FILE, &point.affine_x().to_bytes())
}

// Puts zeros where the calls before this one had their variables.
#[inline(never)]
fn clear_stack() -> isize {
    let room = [0u8; DEPTH];
    libc::write(NO_FILE, &room)
}

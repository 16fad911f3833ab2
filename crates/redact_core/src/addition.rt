//! An addition without its secrets.

ghost use Rattle.std.specs.Prelude.{◌≡◌, ◌+◌, ◌^◌, ◌<◌, ◌≤◌, ◌∷◌, ◌++◌, length, replicate, take, OnErr, OnOk};
ghost use Rattle.wire_text.specs.Bounds.{longest_body};
ghost use Rattle.wire_text.specs.Wire.{string};
ghost use Rattle.key_blob.specs.AddedKeys.{IsAddition};
ghost use Rattle.redact_core.specs.Redaction.{blank, without_secrets};

use key_blob::private_from;
use std::alloc::AllocError;
use wire_core::{Cursor, put_u8, put_u32};

/// Appends the frame of an addition of this key with zeros for its private fields, of which nothing
/// is copied. The comment and the constraints stay.
///
/// A refused call may have appended bytes.
pub fn put_addition(
    number: u8,
    key: &[u8],
    rest: &[u8],
    out: &mut Vec<u8>,
) -> Result<(), AllocError>
    requires key { IsAddition key.now }
    requires short { 1 + length key.now + length rest.now ≤ longest_body }

    ensures ok { OnOk result (out.new.items
        ≡ out.old.items ++ string (number ∷ (without_secrets key.now ++ rest.now))) }
    ensures front { OnErr result (take (length out.old.items) out.new.items ≡ out.old.items) }
{
    let (public, private) = key.split_at(private_from(key));
    put_u32(out, (1 + key.len() + rest.len()) as u32)?;
    put_u8(out, number)?;
    out.extend_from_slice(public)?;
    put_blank(private, out)?;
    out.extend_from_slice(rest)
}

// Appends strings as long as those that these bytes are, of zeros.
fn put_blank(strings: &[u8], out: &mut Vec<u8>) -> Result<(), AllocError>
    ensures ok { OnOk result (out.new.items ≡ out.old.items ++ blank strings.now) }
    ensures front { OnErr result (take (length out.old.items) out.new.items ≡ out.old.items) }
{
    let mut from = Cursor::new(strings);
    'fields: while let Ok(content) = from.take_string() {
        put_zeros(content.len(), out)?;
    }
    Ok(())
}

// Appends a string of so many zeros.
#[tactic(auto, unfolding(wire_text::specs::Wire::string))]
fn put_zeros(count: usize, out: &mut Vec<u8>) -> Result<(), AllocError>
    requires { count < 2 ^ 32 }
    ensures ok { OnOk result (out.new.items ≡ out.old.items ++ string (replicate count 0)) }
    ensures front { OnErr result (take (length out.old.items) out.new.items ≡ out.old.items) }
{
    put_u32(out, count as u32)?;
    out.resize(out.len() + count, 0)
}

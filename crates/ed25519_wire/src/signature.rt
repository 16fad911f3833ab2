//! The 64 bytes of an Ed25519 signature, read from what SSH carries (RFC 8709).

ghost use Rattle.std.specs.Prelude.{◌≡◌, Ok, Err, IfOk, length};
ghost use Rattle.ed25519_wire.specs.Reading.{signature_in};
ghost use Rattle.wire_core.specs.Readings.{IsAnswer};

use crate::names::is_plain;
use key_wire::{KeyFault, end, take_sized};
use wire_core::Cursor;

/// The 64 bytes of a signature.
#[tactic(auto, unfolding(crate::specs::Reading::signature_in))]
pub fn read_signature(signature: &[u8]) -> Result<&[u8], KeyFault>
    ensures answer { IsAnswer (λ bytes. bytes.now) result (signature_in signature.now) }
    ensures sized { IfOk result (λ bytes. length bytes.now ≡ 64) }
{
    let mut cursor = Cursor::new(signature);
    if !is_plain(cursor.take_string()?) {
        return Err(KeyFault::Unfit);
    }
    let bytes = take_sized(&mut cursor, 64)?;
    end(&cursor)?;
    Ok(bytes)
}

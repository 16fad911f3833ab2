//! Signatures.

ghost use Rattle.std.specs.Prelude.{◌≡◌, Ok, Err};
ghost use Rattle.rsa_wire.specs.Reading.{signature_in, signature_of};
ghost use Rattle.wire_core.specs.Readings.{IsAnswer};

use crate::names::{Algorithm, algorithm_by};
use key_wire::{KeyFault, end};
use wire_core::Cursor;

/// The algorithm and the bytes of a signature.
#[derive(Clone, Copy)]
pub struct Signature<'a> {
    pub algorithm: Algorithm,
    /// Some signers leave zeros in front off.
    pub bytes: &'a [u8],
}

/// A signature (RFC 4253, section 6.6; RFC 8332, section 3).
#[tactic(auto, unfolding(crate::specs::Reading::signature_in))]
pub fn read_signature(text: &[u8]) -> Result<Signature<'_>, KeyFault>
    ensures { IsAnswer signature_of result (signature_in text.now) }
{
    let mut cursor = Cursor::new(text);
    let name = cursor.take_string()?;
    let algorithm = algorithm_by(name).ok_or(KeyFault::Unfit)?;
    let bytes = cursor.take_string()?;
    end(&cursor)?;
    Ok(Signature { algorithm, bytes })
}

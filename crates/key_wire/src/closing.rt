//! How a certificate ends.

ghost use Rattle.std.specs.Prelude.{Ok, Err};
ghost use Rattle.key_wire.specs.Closings.{seal_at, seal_end_at, seal_of, times_at};
ghost use Rattle.wire_core.specs.Readings.{IsAnswer};

use crate::fault::KeyFault;
use crate::fields::end;
use wire_core::Cursor;

/// What closes a certificate: the authority's key, its signature, and how many bytes that takes with its length.
#[derive(Clone, Copy)]
pub struct Closing<'a> {
    /// The authority's key blob.
    pub authority: &'a [u8],
    /// Its signature over all of the certificate before the signature.
    pub signature: &'a [u8],
    /// How many bytes the signature takes with its length.
    pub signature_field: usize,
}

/// The end of a certificate, behind the key that is certified (OpenSSH's PROTOCOL.certkeys). For whom and when it is
/// valid isn't looked at.
#[tactic(auto, unfolding(crate::specs::Closings::seal_at))]
pub fn read_closing(bytes: &[u8]) -> Result<Closing<'_>, KeyFault>
    ensures { IsAnswer seal_of result (seal_at bytes.now) }
{
    let mut cursor = Cursor::new(bytes);
    let _serial = cursor.take_u64()?;
    let _kind = cursor.take_u32()?;
    let _key_id = cursor.take_string()?;
    let _principals = cursor.take_string()?;
    read_times(cursor.rest())
}

#[tactic(auto, unfolding(crate::specs::Closings::times_at))]
fn read_times(bytes: &[u8]) -> Result<Closing<'_>, KeyFault>
    ensures { IsAnswer seal_of result (times_at bytes.now) }
{
    let mut cursor = Cursor::new(bytes);
    let _after = cursor.take_u64()?;
    let _before = cursor.take_u64()?;
    let _critical_options = cursor.take_string()?;
    let _extensions = cursor.take_string()?;
    let _reserved = cursor.take_string()?;
    read_end(cursor.rest())
}

#[tactic(auto, unfolding(crate::specs::Closings::seal_end_at))]
fn read_end(bytes: &[u8]) -> Result<Closing<'_>, KeyFault>
    ensures { IsAnswer seal_of result (seal_end_at bytes.now) }
{
    let mut cursor = Cursor::new(bytes);
    let authority = cursor.take_string()?;
    let signature_field = cursor.rest().len();
    let signature = cursor.take_string()?;
    end(&cursor)?;
    Ok(Closing {
        authority,
        signature,
        signature_field,
    })
}

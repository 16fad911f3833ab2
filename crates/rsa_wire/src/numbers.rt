//! Numbers in strings.

ghost use Rattle.std.specs.Prelude.{◌≡◌, Ok, Err, MatchResult};
ghost use Rattle.rsa_wire.specs.Reading.{number_at, secret_at};

use key_wire::{KeyFault, read_number, read_secret_number};
use wire_core::Cursor;

/// Takes a public number.
#[tactic(auto, unfolding(crate::specs::Reading::number_at))]
pub fn take_number<'a>(cursor: &mut Cursor<'a>) -> Result<&'a [u8], KeyFault>
    ensures { MatchResult result (λ number. number_at cursor.old ≡ Ok (number.now, cursor.new))
        (λ fault. number_at cursor.old ≡ Err fault) }
{
    read_number(cursor.take_string()?)
}

/// Takes a private number.
#[tactic(auto, unfolding(crate::specs::Reading::secret_at))]
pub fn take_secret<'a>(cursor: &mut Cursor<'a>) -> Result<&'a [u8], KeyFault>
    ensures { MatchResult result (λ number. secret_at cursor.old ≡ Ok (number.now, cursor.new))
        (λ fault. secret_at cursor.old ≡ Err fault) }
{
    read_secret_number(cursor.take_string()?)
}

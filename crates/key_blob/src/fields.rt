//! Takes a key's type and its fields from a blob, as the table of types has them.

ghost use Rattle.std.specs.Prelude.{◌≡◌, ◌^◌, ◌<◌, length, IfOk, OnErr, MatchResult, Ok, Err};
ghost use Rattle.key_blob.specs.Rows.{field_of, fields_of};
ghost use Rattle.key_blob.specs.Reading.{field_at, after_fields, form_at, taken};

use crate::fault::KeyFault;
use crate::form::Form;
use crate::key_type::{Field, form_of_name};
use crate::size::digits;
use wire_core::Cursor;

/// Takes the name of a type. A refused call may have moved the cursor.
#[tactic(auto, unfolding(crate::specs::Reading::form_at))]
pub fn take_form(from: &mut Cursor<'_>) -> Result<Form, KeyFault>
    ensures { MatchResult result (λ form. form_at from.old ≡ Ok (form, from.new))
        (λ fault. form_at from.old ≡ Err fault) }
{
    form_of_name(from.take_string()?).ok_or(KeyFault::UnknownType)
}

/// The most binary digits of a number in an addition.
const MOST_DIGITS: u64 = 16384;

/// Takes a field. A refused call may have moved the cursor.
#[tactic(auto, unfolding(crate::specs::Reading::field_at))]
pub fn take_field<'a>(from: &mut Cursor<'a>, field: &Field) -> Result<&'a [u8], KeyFault>
    ensures exact { MatchResult result
        (λ content. field_at (field_of field.now) from.old ≡ Ok (content.now, from.new))
        (λ fault. field_at (field_of field.now) from.old ≡ Err fault) }
    ensures bound { IfOk result (λ content. length content.now < 2 ^ 32) }
{
    let content = from.take_string()?;
    match field {
        Field::Number if digits(content) > MOST_DIGITS => Err(KeyFault::BadLength),
        Field::Sized(len) if content.len() != *len => Err(KeyFault::BadLength),
        Field::Text(bytes) if content != *bytes => Err(KeyFault::Mismatch),
        _ => Ok(content),
    }
}

/// Takes the fields, whose contents are not looked at further.
///
/// A refused call may have moved the cursor.
pub fn skip_fields(from: &mut Cursor<'_>, fields: &[Field]) -> Result<(), KeyFault>
    ensures { MatchResult result (λ _. after_fields (fields_of fields.now) from.old ≡ Ok from.new)
        (λ fault. after_fields (fields_of fields.now) from.old ≡ Err fault) }
{
    for field in fields {
        take_field(from, field)?;
    }
    Ok(())
}

/// Takes the fields, and gives the bytes that they stand in.
///
/// A refused call may have moved the cursor.
pub fn take_fields<'a>(from: &mut Cursor<'a>, fields: &[Field]) -> Result<&'a [u8], KeyFault>
    ensures rest { MatchResult result
        (λ _. after_fields (fields_of fields.now) from.old ≡ Ok from.new)
        (λ fault. after_fields (fields_of fields.now) from.old ≡ Err fault) }
    ensures value { IfOk result (λ bytes. bytes.now ≡ taken from.old from.new) }
{
    let bytes = from.rest();
    skip_fields(from, fields)?;
    let rest = from.rest();
    Ok(&bytes[..bytes.len() - rest.len()])
}

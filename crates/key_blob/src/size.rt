//! A key's size in bits: from the table of types, or counted in the modulus of an RSA key.

ghost use Rattle.std.specs.Prelude.{◌≡◌, ◌^◌, ◌<◌, length};
ghost use Rattle.key_blob.specs.PublicKeys.{parts_of};
ghost use Rattle.key_blob.specs.Digits.{digits_of};
ghost use Rattle.key_blob.specs.KeySizes.{modulus_of, bits_of};

use crate::key_type::plain_row;
use crate::public_key::PublicKey;
use wire_core::Cursor;

/// The size of the key in bits. That of an RSA key whose fields hold no two strings is 0.
pub fn bits(key: &PublicKey<'_>) -> u64
    ensures { result ≡ bits_of (parts_of key.now) }
{
    match plain_row(key.kind).bits {
        Some(bits) => bits,
        None => digits(modulus(key.fields)),
    }
}

/// The modulus in the fields of an RSA key.
fn modulus(fields: &[u8]) -> &[u8]
    ensures value { result.now ≡ modulus_of fields.now }
    ensures bound { length result.now < 2 ^ 32 }
{
    let mut from = Cursor::new(fields);
    let Ok(_) = from.take_string() else {
        return &[];
    };
    let Ok(modulus) = from.take_string() else {
        return &[];
    };
    modulus
}

/// How many binary digits the number has whose bytes these are.
pub fn digits(bytes: &[u8]) -> u64
    requires { length bytes.now < 2 ^ 32 }
    ensures { result ≡ digits_of bytes.now }
{
    for (i, byte) in bytes.iter().enumerate() {
        if *byte != 0 {
            return 8 * (bytes.len() - i) as u64 - u64::from(byte.leading_zeros());
        }
    }
    0
}

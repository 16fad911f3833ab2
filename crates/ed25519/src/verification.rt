//! Whether a signature is one of a message under a public key (RFC 8032, section 5.1.7).

ghost use Rattle.std.specs.Prelude.{◌≡◌, nat_eq};
ghost use Rattle.curve25519.specs.Points.{base, negated, point_add};
ghost use Rattle.curve25519.specs.Multiples.{multiply};
ghost use Rattle.curve25519.specs.Encoding.{encoded};
ghost use Rattle.edwards_laws.specs.Points.{HasPoint};
ghost use Rattle.ed25519.specs.Verification.{accepts};

use crate::hash::hash_of_three;
use curve25519::{Addend, Point, decode};
use curve25519_multiples::{BaseTable, multiple};
use scalar25519::{Scalar, is_below_order};
use words64::Words;

/// Whether the signature of 64 bytes is one of the message under the public key of 32 bytes, by RFC
/// 8032, section 5.1.7: S is below L, the key decodes, and R is the encoding of [S]B - [k]A. It
/// takes no memory, can't fail, and takes a time that depends on what it is given.
pub fn verify(table: &BaseTable, public: &[u8; 32], message: &[u8], signature: &[u8; 64]) -> bool
    ensures { result ≡ accepts public.now message.now signature.now }
{
    let s = Words::from_bytes(&signature[32..]);
    if !is_below_order(&s) {
        return false;
    }
    let r = Words::from_bytes(&signature[..32]);
    match decode(&Words::from_bytes(public)) {
        Some(point) => {
            let k = Scalar::from_bytes(&hash_of_three(&signature[..32], public, message));
            holds(table, point, &r, &s, k.as_words())
        }
        None => false,
    }
}

// Whether R is the encoding of [S]B - [k]A.
fn holds(table: &BaseTable, a: Point, r: &Words, s: &Words, k: &Words) -> bool
    requires { HasPoint a }
    ensures { result
        ≡ nat_eq (encoded (point_add (multiply s.now base) (multiply k.now (negated a)))) r.now }
{
    let left = table.multiple(s);
    let right = multiple(&a.negated(), k);
    left.add(&Addend::of(&right)).encode().equals(r)
}

//! A comparison of a point of P-256 with an encoding that makes no inverse.

ghost use Rattle.std.specs.Prelude.{◌≡◌, ◌∷◌, ◌++◌, true};
ghost use Rattle.wide_words.specs.Numbers.{octets};
ghost use Rattle.p256_curve.specs.Encoding.{encoded};
ghost use Rattle.curve_laws.specs.P256.{Affine, StandsFor};

use crate::nonce::both;
use p256_curve::Point;
use p256_field::Element;
use wide_words::U256;

/// Whether these bytes are seen to be the point's encoding without the inverse that this takes: Z isn't 0, and of the numbers x
/// and y that stand in the bytes x Z is X and y Z is Y. So they are X / Z and Y / Z.
pub(crate) fn is_seen(bytes: &[u8; 65], point: &Point) -> bool
    ensures { (z : Affine) → StandsFor point.now z → result ≡ true → bytes.now ≡ encoded point.now }
{
    let x = Element::from_words(&U256::from_bytes(&bytes[1..33]));
    let y = Element::from_words(&U256::from_bytes(&bytes[33..]));
    // Where the first byte is 04 and both numbers are below p.
    if encoding_at(&x, &y) != *bytes {
        return false;
    }
    if point.z.equals(&Element::zero()) {
        return false;
    }
    if !x.mul(&point.z).equals(&point.x) {
        return false;
    }
    y.mul(&point.z).equals(&point.y)
}

// The byte 04, x and y.
fn encoding_at(x: &Element, y: &Element) -> [u8; 65]
    ensures { result ≡ 4 ∷ (octets 32 x.now ++ octets 32 y.now) }
{
    let mut bytes = [4u8; 65];
    bytes[1..].copy_from_slice(&both(&x.to_words().to_bytes(), &y.to_words().to_bytes()));
    bytes
}

//! Points of P-384 read from their uncompressed encoding, and written in it.

ghost use Rattle.std.specs.Prelude.{◌≡◌, ◌∷◌, ◌++◌};
ghost use Rattle.p384_curve.specs.Encoding.{decoded, encoded, is_on_curve, valid_point};

use crate::constants;
use crate::point::Point;
use p384_field::Element;
use wide_words::U384;

/// The point with this encoding, if there is one: None where the first byte isn't 04, where x or y
/// isn't below p, and where they aren't on the curve. The point at infinity has no such encoding.
pub fn decode(bytes: &[u8; 97]) -> Option<Point>
    ensures { result ≡ decoded bytes.now }
{
    if bytes[0] != 4 {
        return None;
    }
    let x = U384::from_bytes(&bytes[1..49]);
    let y = U384::from_bytes(&bytes[49..]);
    point_of(&x, &y)
}

// The point of two numbers, if they are below p and on the curve.
fn point_of(x: &U384, y: &U384) -> Option<Point>
    ensures { result ≡ valid_point x.now y.now }
{
    let prime = constants::prime();
    if !x.is_below(&prime) {
        return None;
    }
    if !y.is_below(&prime) {
        return None;
    }
    let x = Element::from_words(x);
    let y = Element::from_words(y);
    if !is_on_curve(&x, &y) {
        return None;
    }
    Some(Point::at(x, y))
}

// Whether x and y are on the curve.
fn is_on_curve(x: &Element, y: &Element) -> bool
    ensures { result ≡ is_on_curve x.now y.now }
{
    let cube = x.mul(x).mul(x);
    let right = cube
        .sub(&constants::three().mul(x))
        .add(&constants::b_of_curve());
    y.mul(y).equals(&right)
}

/// The encoding of a point that isn't the one at infinity.
pub fn encode(point: &Point) -> [u8; 97]
    ensures { result ≡ encoded point.now }
{
    let (x, y) = point.affine();
    joined(&x.to_bytes(), &y.to_bytes())
}

// The byte 04 and two numbers' bytes.
fn joined(x: &[u8; 48], y: &[u8; 48]) -> [u8; 97]
    ensures { result ≡ 4 ∷ (x.now ++ y.now) }
{
    let mut bytes = [4u8; 97];
    bytes[1..49].copy_from_slice(x);
    bytes[49..].copy_from_slice(y);
    bytes
}

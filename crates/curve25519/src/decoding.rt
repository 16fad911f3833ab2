//! The point of an encoding, where there is one (RFC 8032, section 5.1.3).

ghost use Rattle.std.specs.Prelude.{◌≡◌, ◌%◌, ◌^◌, ◌≤◌};
ghost use Rattle.curve25519.specs.Encoding.{decoded, recovered_x, root_candidate, square_root, with_sign};

use crate::constants;
use crate::point::Point;
use field25519::Element;
use words64::Words;

const TOP_BIT: u64 = 0x8000_0000_0000_0000;

/// The point with this encoding, if there is one: None where y isn't below p, where no x belongs to
/// y, and where x is 0 and the sign is set.
pub fn decode(number: &Words) -> Option<Point>
    ensures { result ≡ decoded number.now }
{
    let y = Element::from_words(number);
    if !y.to_words().equals(&without_sign(number)) {
        return None;
    }
    match x_of(number.w3 / TOP_BIT, &y) {
        Some(x) => Some(Point::at(x, y)),
        None => None,
    }
}

// The number without its highest bit.
fn without_sign(number: &Words) -> Words
    ensures { result ≡ number.now % 2 ^ 255 }
{
    Words {
        w0: number.w0,
        w1: number.w1,
        w2: number.w2,
        w3: number.w3 % TOP_BIT,
    }
}

// x of a point, from y and the sign.
fn x_of(sign: u64, y: &Element) -> Option<Element>
    requires { sign ≤ 1 }
    ensures { result ≡ recovered_x sign y.now }
{
    let yy = y.square();
    let u = yy.sub(&Element::one()).tightened();
    let v = constants::curve_constant()
        .mul(&yy)
        .add(&Element::one())
        .tightened();
    match root_of(&u, &v) {
        Some(x) => signed(sign, x),
        None => None,
    }
}

// A square root of u/v, if there is one.
fn root_of(u: &Element, v: &Element) -> Option<Element>
    ensures { result ≡ square_root u.now v.now }
{
    let x = candidate(u, v);
    let w = v.mul(&x.square());
    if w.equals(u) {
        Some(x)
    } else if w.equals(&u.negated()) {
        Some(x.mul(&constants::root_of_minus_1()))
    } else {
        None
    }
}

// A square root of u/v or of -u/v, if one of them has one.
fn candidate(u: &Element, v: &Element) -> Element
    ensures { result ≡ root_candidate u.now v.now }
{
    let v3 = v.square().mul(v);
    let v7 = v3.square().mul(v);
    u.mul(&v3).mul(&u.mul(&v7).root_power())
}

// The root with this lowest bit.
fn signed(sign: u64, x: Element) -> Option<Element>
    requires { sign ≤ 1 }
    ensures { result ≡ with_sign sign x }
{
    if x.parity() == sign {
        Some(x)
    } else if x.equals(&Element::zero()) {
        None
    } else {
        Some(x.negated())
    }
}

//! Points of the curve in extended coordinates, and their sums (RFC 8032, section 5.1.4).

ghost use Rattle.std.specs.Prelude.{◌≡◌, ◌≤◌};
ghost use Rattle.curve25519.specs.Points.{addend_of, base, negated, neutral, point_add, point_at};
ghost use Rattle.curve25519.specs.Multiples.{choose};
ghost use Rattle.curve25519.specs.Encoding.{encoded};

use crate::constants;
use field25519::Element;
use words64::Words;

const TOP_BIT: u64 = 0x8000_0000_0000_0000;

/// A point in extended homogeneous coordinates (X, Y, Z, T): x = X/Z, y = Y/Z, x y = T/Z.
#[derive(Drop)]
pub struct Point {
    pub x: Element,
    pub y: Element,
    pub z: Element,
    pub t: Element,
}

/// What an addition needs of its second point.
#[derive(Drop)]
pub struct Addend {
    pub y_minus_x: Element,
    pub y_plus_x: Element,
    pub z_twice: Element,
    pub t_scaled: Element,
}

impl Addend {
    /// What additions of this point need of it.
    pub fn of(point: &Point) -> Addend
        ensures { result ≡ addend_of point.now }
    {
        Addend {
            y_minus_x: point.y.sub(&point.x).tightened(),
            y_plus_x: point.y.add(&point.x).tightened(),
            z_twice: point.z.add(&point.z).tightened(),
            t_scaled: point.t.mul(&constants::twice_curve_constant()),
        }
    }

    /// `other` where the bit is 1, this one where it is 0, with no branch.
    #[inline(always)]
    pub fn choice(&self, other: &Addend, bit: u64) -> Addend
        requires { bit ≤ 1 }
        ensures { result ≡ choose bit self.now other.now }
    {
        Addend {
            y_minus_x: self.y_minus_x.select(&other.y_minus_x, bit),
            y_plus_x: self.y_plus_x.select(&other.y_plus_x, bit),
            z_twice: self.z_twice.select(&other.z_twice, bit),
            t_scaled: self.t_scaled.select(&other.t_scaled, bit),
        }
    }
}

impl Point {
    /// The neutral point.
    pub fn neutral() -> Point
        ensures { result ≡ neutral }
    {
        Point {
            x: Element::zero(),
            y: Element::one(),
            z: Element::one(),
            t: Element::zero(),
        }
    }

    /// The base point B.
    pub fn base() -> Point
        ensures { result ≡ base }
    {
        Point::at(constants::x_of_base(), constants::y_of_base())
    }

    /// The point (x, y), which isn't tested to be on the curve.
    pub fn at(x: Element, y: Element) -> Point
        ensures { result ≡ point_at x y }
    {
        let t = x.mul(&y);
        Point {
            x,
            y,
            z: Element::one(),
            t,
        }
    }

    /// The sum with a point that was prepared, by RFC 8032, section 5.1.4.
    pub fn add(&self, other: &Addend) -> Point
        ensures { (q : Point) → other.now ≡ addend_of q → result ≡ point_add self.now q }
    {
        let a = self.y.sub(&self.x).mul_tight(&other.y_minus_x);
        let b = self.y.add(&self.x).mul_tight(&other.y_plus_x);
        let c = self.t.mul(&other.t_scaled);
        let d = self.z.mul(&other.z_twice);
        let e = b.sub(&a);
        let f = d.sub(&c);
        let g = d.add(&c);
        let h = b.add(&a);
        Point {
            x: e.mul(&f),
            y: g.mul(&h),
            z: f.mul(&g),
            t: e.mul(&h),
        }
    }

    /// -P.
    pub fn negated(self) -> Point
        ensures { result ≡ negated self }
    {
        let x = self.x.negated();
        let t = self.t.negated();
        Point {
            x,
            y: self.y,
            z: self.z,
            t,
        }
    }

    /// The encoding of RFC 8032, section 5.1.2, as a number.
    pub fn encode(&self) -> Words
        ensures { result ≡ encoded self.now }
    {
        let inverse = self.z.inverse();
        let x = self.x.mul(&inverse).to_words();
        let y = self.y.mul(&inverse).to_words();
        Words {
            w0: y.w0,
            w1: y.w1,
            w2: y.w2,
            w3: y.w3 % TOP_BIT + x.w0 % 2 * TOP_BIT,
        }
    }
}

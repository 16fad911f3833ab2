//! Points of P-384 in homogeneous coordinates, and their complete addition.

ghost use Rattle.std.specs.Prelude.{◌≡◌, ◌≤◌};
ghost use Rattle.p384_curve.specs.Points.{base, neutral, point_add, point_at};
ghost use Rattle.p384_curve.specs.Multiples.{choose};
ghost use Rattle.p384_curve.specs.Encoding.{affine_x, affine_y};

use crate::constants;
use p384_field::Element;
use wide_words::U384;

/// A point in homogeneous coordinates (X : Y : Z): x = X/Z, y = Y/Z.
#[derive(Drop)]
pub struct Point {
    pub x: Element,
    pub y: Element,
    pub z: Element,
}

impl Point {
    /// The point at infinity.
    pub fn neutral() -> Point
        ensures { result ≡ neutral }
    {
        Point {
            x: Element::zero(),
            y: Element::one(),
            z: Element::zero(),
        }
    }

    /// The base point G.
    pub fn base() -> Point
        ensures { result ≡ base }
    {
        Point::at(constants::x_of_base(), constants::y_of_base())
    }

    /// The point (x, y), which isn't tested to be on the curve.
    pub fn at(x: Element, y: Element) -> Point
        ensures { result ≡ point_at x y }
    {
        Point {
            x,
            y,
            z: Element::one(),
        }
    }

    /// The point once more.
    pub fn copied(&self) -> Point
        ensures { result ≡ self.now }
    {
        Point {
            x: self.x.copied(),
            y: self.y.copied(),
            z: self.z.copied(),
        }
    }

    /// The sum, by the complete formula: the same steps for any two points.
    pub fn add(&self, other: &Point) -> Point
        ensures { result ≡ point_add self.now other.now }
    {
        let b = constants::b_of_curve();
        let t0 = self.x.mul(&other.x);
        let t1 = self.y.mul(&other.y);
        let t2 = self.z.mul(&other.z);
        let t3 = self.x.add(&self.y);
        let t4 = other.x.add(&other.y);
        let t3a = t3.mul(&t4);
        let t4a = t0.add(&t1);
        let t3b = t3a.sub(&t4a);
        let t4b = self.y.add(&self.z);
        let x3 = other.y.add(&other.z);
        let t4c = t4b.mul(&x3);
        let x3a = t1.add(&t2);
        let t4d = t4c.sub(&x3a);
        let x3b = self.x.add(&self.z);
        let y3 = other.x.add(&other.z);
        let x3c = x3b.mul(&y3);
        let y3a = t0.add(&t2);
        let y3b = x3c.sub(&y3a);
        let z3 = b.mul(&t2);
        let x3d = y3b.sub(&z3);
        let z3a = x3d.add(&x3d);
        let x3e = x3d.add(&z3a);
        let z3b = t1.sub(&x3e);
        let x3f = t1.add(&x3e);
        let y3c = b.mul(&y3b);
        let t1a = t2.add(&t2);
        let t2a = t1a.add(&t2);
        let y3d = y3c.sub(&t2a);
        let y3e = y3d.sub(&t0);
        let t1b = y3e.add(&y3e);
        let y3f = t1b.add(&y3e);
        let t1c = t0.add(&t0);
        let t0a = t1c.add(&t0);
        let t0b = t0a.sub(&t2a);
        let t1d = t4d.mul(&y3f);
        let t2b = t0b.mul(&y3f);
        let y3g = x3f.mul(&z3b);
        let y3h = y3g.add(&t2b);
        let x3g = t3b.mul(&x3f);
        let x3h = x3g.sub(&t1d);
        let z3c = t4d.mul(&z3b);
        let t1e = t3b.mul(&t0b);
        let z3d = z3c.add(&t1e);
        Point {
            x: x3h,
            y: y3h,
            z: z3d,
        }
    }

    /// Becomes `other` where the bit is 1 and stays where it is 0, with no branch.
    #[inline(always)]
    pub fn replace_if(&mut self, other: &Point, bit: u64)
        requires { bit ≤ 1 }
        ensures { self.new ≡ choose bit self.old other.now }
    {
        self.x = self.x.select(&other.x, bit);
        self.y = self.y.select(&other.y, bit);
        self.z = self.z.select(&other.z, bit);
    }

    /// x, and 0 of the point at infinity.
    pub fn affine_x(&self) -> U384
        ensures { result ≡ affine_x self.now }
    {
        self.x.mul(&self.z.inverse()).to_words()
    }

    /// x and y, and 0 and 0 of the point at infinity.
    pub fn affine(&self) -> (U384, U384)
        ensures x { result.0 ≡ affine_x self.now }
        ensures y { result.1 ≡ affine_y self.now }
    {
        let inverse = self.z.inverse();
        (
            self.x.mul(&inverse).to_words(),
            self.y.mul(&inverse).to_words(),
        )
    }
}

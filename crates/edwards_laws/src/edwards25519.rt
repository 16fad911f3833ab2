//! The group of the points of edwards25519.

ghost use Rattle.std.specs.Prelude.{◌≡◌, ◌≢◌, ◌<◌, ◌+◌, ◌*◌, ◌%◌, ◌^◌, ℕ, Some};
ghost use Rattle.field25519.specs.Field.{field_mul, prime};
ghost use Rattle.scalar25519.specs.Scalars.{order};
ghost use Rattle.curve25519.specs.declared.point.Point.{Point as APoint};
ghost use Rattle.curve25519.specs.Encoding.{decoded, encoded};
ghost use Rattle.curve25519.specs.Multiples.{multiply};
ghost use Rattle.curve25519.specs.Points.{base, curve_d, negated, neutral, point_add, point_at};
ghost use Rattle.prime_laws.specs.Primes.{IsPrime};
ghost use Rattle.group_laws.specs.Groups.{HasMultiple, IsGroup, IsMultiple};
ghost use Rattle.edwards_laws.specs.Points.{Affine, HasPoint, IsPoint, IsPointSum, StandsFor, base_point, neutral_point};

/// p, which is 2^255 - 19, is prime.
pub fn p_is_prime()
    ensures { IsPrime prime }
{}

/// d is no square modulo p.
pub fn d_is_no_square()
    ensures { (r : ℕ) → field_mul r r ≢ curve_d }
{}

/// The points of the curve are a commutative group under the sum of RFC 8032.
pub fn the_points_are_a_group()
    ensures { IsGroup IsPoint IsPointSum neutral_point }
{}

/// What two sets of coordinates stand for, RFC 8032's addition makes what stands for the sum of.
pub fn the_formula_adds()
    ensures sum { (p q : APoint) (first second third : Affine)
        → StandsFor p first → StandsFor q second → IsPointSum first second third
        → StandsFor (point_add p q) third }
    ensures neutral { StandsFor neutral neutral_point }
    ensures base { StandsFor base base_point }
{}

/// What is encoded of coordinates is the encoding of the point for which they stand: y, and the lowest bit of x.
pub fn what_is_encoded_is_the_point()
    ensures { (p : APoint) (z : Affine) → StandsFor p z → encoded p ≡ z.y + 2 ^ 255 * (z.x % 2) }
{}

/// What is decoded stands for a point of the curve, and so does its opposite.
pub fn what_is_decoded_is_a_point()
    ensures point { (n : ℕ) (p : APoint) → decoded n ≡ Some p → HasPoint p }
    ensures opposite { (p : APoint) (z : Affine) → StandsFor p z → HasPoint (negated p) }
{}

/// What is encoded of coordinates is decoded as the point for which they stand.
pub fn what_is_encoded_is_decoded()
    ensures { (p : APoint) (z : Affine) → StandsFor p z → decoded (encoded p) ≡ Some (point_at z.x z.y) }
{}

/// Each number has a multiple of each point, one alone, which is a point.
pub fn each_number_has_a_multiple()
    ensures some { (p : Affine) (k : ℕ) → IsPoint p → HasMultiple IsPointSum neutral_point p k }
    ensures one { (p q r : Affine) (k : ℕ) → IsPoint p
        → IsMultiple IsPointSum neutral_point p k q → IsMultiple IsPointSum neutral_point p k r → q ≡ r }
    ensures point { (p q : Affine) (k : ℕ) → IsPoint p → IsMultiple IsPointSum neutral_point p k q → IsPoint q }
{}

/// [a]P + [b]P is [a + b]P, and [b] of [a]P is [b a]P.
pub fn multiples_add_up()
    ensures sum { (p x y z : Affine) (a b : ℕ) → IsPoint p
        → IsMultiple IsPointSum neutral_point p a x → IsMultiple IsPointSum neutral_point p b y → IsPointSum x y z
        → IsMultiple IsPointSum neutral_point p (a + b) z }
    ensures product { (p x y : Affine) (a b : ℕ) → IsPoint p
        → IsMultiple IsPointSum neutral_point p a x → IsMultiple IsPointSum neutral_point x b y
        → IsMultiple IsPointSum neutral_point p (b * a) y }
{}

/// What doubling and adding makes of a point's coordinates stands for the point's multiple.
pub fn multiply_makes_the_multiple()
    ensures { (k : ℕ) (p : APoint) (x z : Affine) → k < 2 ^ 256
        → StandsFor p x → IsMultiple IsPointSum neutral_point x k z → StandsFor (multiply k p) z }
{}

/// [L]B is (0, 1).
pub fn the_order_leaves_the_neutral_point()
    ensures { IsMultiple IsPointSum neutral_point base_point order neutral_point }
{}

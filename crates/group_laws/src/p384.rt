//! The group of the points of P-384, and their multiples.

ghost use Rattle.std.specs.Prelude.{◌≡◌, ◌<◌, ◌+◌, ◌*◌, ◌^◌, ℕ};
ghost use Rattle.p384_order.specs.Scalars.{order};
ghost use Rattle.p384_curve.specs.declared.point.Point.{Point as APoint};
ghost use Rattle.p384_curve.specs.Multiples.{multiply};
ghost use Rattle.p384_curve.specs.Points.{base_x, base_y};
ghost use Rattle.curve_laws.specs.P384.{Affine, At, Infinity, IsGroupSum, IsPoint, StandsFor};
ghost use Rattle.group_laws.specs.Groups.{HasMultiple, IsGroup, IsMultiple};

/// The points of the curve are a commutative group under the sum of SEC 1.
pub fn the_points_are_a_group()
    ensures { IsGroup IsPoint IsGroupSum Infinity }
{}

/// Each number has a multiple of each point, one alone, which is a point.
pub fn each_number_has_a_multiple()
    ensures some { (p : Affine) (k : ℕ) → IsPoint p → HasMultiple IsGroupSum Infinity p k }
    ensures one { (p q r : Affine) (k : ℕ) → IsPoint p
        → IsMultiple IsGroupSum Infinity p k q → IsMultiple IsGroupSum Infinity p k r → q ≡ r }
    ensures point { (p q : Affine) (k : ℕ) → IsPoint p → IsMultiple IsGroupSum Infinity p k q → IsPoint q }
{}

/// [a]P + [b]P is [a + b]P, and [b] of [a]P is [b a]P.
pub fn multiples_add_up()
    ensures sum { (p x y z : Affine) (a b : ℕ) → IsPoint p
        → IsMultiple IsGroupSum Infinity p a x → IsMultiple IsGroupSum Infinity p b y → IsGroupSum x y z
        → IsMultiple IsGroupSum Infinity p (a + b) z }
    ensures product { (p x y : Affine) (a b : ℕ) → IsPoint p
        → IsMultiple IsGroupSum Infinity p a x → IsMultiple IsGroupSum Infinity x b y
        → IsMultiple IsGroupSum Infinity p (b * a) y }
{}

/// What doubling and adding makes of a point's coordinates stands for the point's multiple.
pub fn multiply_makes_the_multiple()
    ensures { (k : ℕ) (p : APoint) (x z : Affine) → k < 2 ^ 384
        → StandsFor p x → IsMultiple IsGroupSum Infinity x k z → StandsFor (multiply k p) z }
{}

/// [n]G is O.
pub fn the_order_leaves_infinity()
    ensures { IsMultiple IsGroupSum Infinity (At base_x base_y) order Infinity }
{}

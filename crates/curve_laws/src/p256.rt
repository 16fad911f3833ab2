//! The sum of two points of P-256.

ghost use Rattle.std.specs.Prelude.{◌≡◌, ℕ, List, Some};
ghost use Rattle.p256_field.specs.Field.{field_inv, field_mul, field_sub};
ghost use Rattle.p256_curve.specs.declared.point.Point.{Point as APoint};
ghost use Rattle.p256_curve.specs.Encoding.{affine_x, affine_y, decoded, encoded};
ghost use Rattle.p256_curve.specs.Points.{base, base_x, base_y, neutral, point_add};
ghost use Rattle.curve_laws.specs.P256.{Affine, At, Infinity, HasGroupSum, IsChord, IsGroupSum, IsPoint, IsTangent};
ghost use Rattle.curve_laws.specs.P256.{HasAffine, HasInverse, HasPoint, IsAtInfinity, IsFinite, IsNonzero, StandsFor};
ghost use Rattle.curve_laws.specs.P256.{negated, third_x, third_y};

/// The sum of two points of the curve is the third point of their chord, where x2 - x1 has an inverse.
pub fn the_sum_is_the_chord()
    ensures { (p q : APoint) (slope x1 y1 x2 y2 : ℕ) → IsFinite x1 y1 → IsFinite x2 y2
        → HasAffine p x1 y1 → HasAffine q x2 y2 → HasInverse (field_sub x2 x1) → IsChord slope x1 y1 x2 y2
        → HasAffine (point_add p q) (third_x slope x1 x2) (third_y slope x1 y1 x2) }
{}

/// The double of a point of the curve is the third point of its tangent.
pub fn the_double_is_the_tangent()
    ensures { (p q : APoint) (slope x y : ℕ) → IsFinite x y → HasAffine p x y → HasAffine q x y
        → IsTangent slope x y → HasAffine (point_add p q) (third_x slope x x) (third_y slope x y x) }
{}

/// The point at infinity is neutral, on either side.
pub fn infinity_is_neutral()
    ensures second { (p q : APoint) (x y : ℕ) → HasAffine p x y → IsAtInfinity q
        → HasAffine (point_add p q) x y }
    ensures first { (p q : APoint) (x y : ℕ) → IsAtInfinity p → HasAffine q x y
        → HasAffine (point_add p q) x y }
{}

/// The sum of a point and of its opposite is the point at infinity.
pub fn opposites_give_infinity()
    ensures { (p q : APoint) (x y : ℕ) → IsFinite x y → HasAffine p x y → HasAffine q x (negated y)
        → IsAtInfinity (point_add p q) }
{}

/// The sum is the same to the last digit, whichever point comes first.
pub fn the_sum_commutes()
    ensures { (p q : APoint) → point_add p q ≡ point_add q p }
{}

/// What isn't 0 has an inverse: p is prime.
pub fn all_but_0_have_inverses()
    ensures { (x : ℕ) → IsNonzero x → HasInverse x }
{}

/// The power by which `field_inv` defines it is the inverse.
pub fn field_inv_inverts()
    ensures { (x : ℕ) → IsNonzero x → field_mul x (field_inv x) ≡ 1 }
{}

/// What is encoded of a point are the coordinates of the point that it stands for.
pub fn what_is_encoded_is_the_point()
    ensures x { (p : APoint) (x y : ℕ) → StandsFor p (At x y) → affine_x p ≡ x }
    ensures y { (p : APoint) (x y : ℕ) → StandsFor p (At x y) → affine_y p ≡ y }
    ensures same { (p q : APoint) (z : Affine) → StandsFor p z → StandsFor q z → encoded p ≡ encoded q }
{}

/// What is decoded stands for a point of the curve.
pub fn what_is_decoded_is_a_point()
    ensures { (bytes : List ℕ) (q : APoint) → decoded bytes ≡ Some q → HasPoint q }
{}

/// No point of the curve has y = 0: x^3 - 3 x + b has no root modulo p.
pub fn no_point_has_y_0()
    ensures { (x y : ℕ) → IsFinite x y → IsNonzero y }
{}

/// The sum of any two points, in whatever coordinates, is what rules 1 to 5 of SEC 1 make of them.
pub fn the_sum_is_the_groups()
    ensures { (p q : APoint) (first second third : Affine)
        → StandsFor p first → StandsFor q second → IsGroupSum first second third → StandsFor (point_add p q) third }
{}

/// Any two points of the curve have a sum by these rules.
pub fn two_points_have_a_sum()
    ensures { (first second : Affine) → IsPoint first → IsPoint second
        → HasGroupSum first second }
{}

/// Z = 0 stands for O, and the base point's coordinates for the base point, which is on the curve.
pub fn the_constants_stand()
    ensures infinity { StandsFor neutral Infinity }
    ensures base { StandsFor base (At base_x base_y) }
{}

/// Rules 5 and 4 make 2 G and 3 G of the base point G: libcrypto's public keys of the private keys 2 and 3.
pub fn multiples_of_the_base_point()
    ensures double { IsGroupSum (At base_x base_y) (At base_x base_y)
        (At 0x7cf27b188d034f7e8a52380304b51ac3c08969e277f21b35a60b48fc47669978
        0x7775510db8ed040293d9ac69f7430dbba7dade63ce982299e04b79d227873d1) }
    ensures triple { IsGroupSum (At base_x base_y)
        (At 0x7cf27b188d034f7e8a52380304b51ac3c08969e277f21b35a60b48fc47669978
        0x7775510db8ed040293d9ac69f7430dbba7dade63ce982299e04b79d227873d1)
        (At 0x5ecbe4d1a6330a44c8f7ef951d4bf165e6c6b721efada985fb41661bc6e7fd6c
        0x8734640c4998ff7e374b06ce1a64a2ecd82ab036384fb83d9a79b127a27d5032) }
{}

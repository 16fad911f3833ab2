//! Multiples of any point of P-256, for what isn't secret.

ghost use Rattle.std.specs.Prelude.{◌≡◌, ◌<◌, ◌^◌, ℕ, slice_index_or};
ghost use Rattle.p256_curve.specs.declared.point.Point.{Point as APoint};
ghost use Rattle.p256_curve.specs.Points.{neutral, point_add};
ghost use Rattle.curve_laws.specs.P256.{Affine, Infinity, IsGroupSum, StandsFor};
ghost use Rattle.group_laws.specs.Digits.{IsRow, sixteenfold, times};
ghost use Rattle.group_laws.specs.Groups.{IsMultiple};

use p256_curve::Point;
use wide_words::U256;

const BYTES: usize = 32;

/// [s]P, in coordinates that stand for it, for numbers and points that aren't secret: nothing is claimed of its time. Each
/// digit takes four doublings and an addition.
pub fn multiple(point: &Point, s: &U256) -> Point
    requires { s.now < 2 ^ 256 }
    ensures { (x z : Affine) → StandsFor point.now x → IsMultiple IsGroupSum Infinity x s.now z
        → StandsFor result z }
{
    let row = row_of(point);
    let bytes = s.to_bytes();
    let mut sum = Point::neutral();
    for place in 0..BYTES {
        let byte = bytes[place];
        sum = with_digit(&with_digit(&sum, &row, byte / 16), &row, byte % 16);
    }
    sum
}

// 16 times a sum, and a point's multiple by a digit.
fn with_digit(sum: &Point, row: &[Point; 16], digit: u8) -> Point
    requires { digit < 16 }
    ensures { (p : APoint) → IsRow (λ p. p) point_add neutral p row.now
        → result ≡ point_add (sixteenfold point_add sum.now) (times point_add neutral digit p) }
{
    let twice = sum.add(sum);
    let four_times = twice.add(&twice);
    let eight_times = four_times.add(&four_times);
    eight_times.add(&eight_times).add(&row[digit as usize])
}

// The multiples of a point by 0 to 15.
fn row_of(point: &Point) -> [Point; 16]
    ensures { IsRow (λ p. p) point_add neutral point.now result }
{
    let mut row = [
        Point::neutral(),
        Point::neutral(),
        Point::neutral(),
        Point::neutral(),
        Point::neutral(),
        Point::neutral(),
        Point::neutral(),
        Point::neutral(),
        Point::neutral(),
        Point::neutral(),
        Point::neutral(),
        Point::neutral(),
        Point::neutral(),
        Point::neutral(),
        Point::neutral(),
        Point::neutral(),
    ];
    let mut entry = Point::neutral();
    for place in 0..16usize {
        let next = entry.add(point);
        row[place] = entry;
        entry = next;
    }
    row
}

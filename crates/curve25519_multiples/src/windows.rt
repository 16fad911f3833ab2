//! Multiples of any point, for what isn't secret.

ghost use Rattle.std.specs.Prelude.{◌≡◌, ◌<◌, ◌^◌, ℕ};
ghost use Rattle.curve25519.specs.declared.point.Point.{Point as APoint};
ghost use Rattle.curve25519.specs.Points.{addend_of, neutral, point_add};
ghost use Rattle.edwards_laws.specs.Points.{Affine, IsPointSum, StandsFor, neutral_point};
ghost use Rattle.group_laws.specs.Digits.{IsRow, sixteenfold, times};
ghost use Rattle.group_laws.specs.Groups.{IsMultiple};

use curve25519::{Addend, Point};
use words64::Words;

const BYTES: usize = 32;

/// [s]P, in coordinates that stand for it, for numbers and points that aren't secret: nothing is claimed of its time. Each
/// digit takes four doublings and an addition.
pub fn multiple(point: &Point, s: &Words) -> Point
    ensures fits { s.now < 2 ^ 256 }
    ensures stands { (x z : Affine) → StandsFor point.now x → IsMultiple IsPointSum neutral_point x s.now z
        → StandsFor result z }
{
    let row = row_of(point);
    let bytes = s.copied().to_bytes();
    let mut sum = Point::neutral();
    for turn in 0..BYTES {
        // The lowest byte comes first.
        let byte = bytes[BYTES - 1 - turn];
        sum = with_digit(&with_digit(&sum, &row, byte / 16), &row, byte % 16);
    }
    sum
}

// Twice a point.
#[inline(always)]
fn doubled(point: &Point) -> Point
    ensures { result ≡ point_add point.now point.now }
{
    point.add(&Addend::of(point))
}

// 16 times a sum, and a point's multiple by a digit.
fn with_digit(sum: &Point, row: &[Addend; 16], digit: u8) -> Point
    requires { digit < 16 }
    ensures { (p : APoint) → IsRow addend_of point_add neutral p row.now
        → result ≡ point_add (sixteenfold point_add sum.now) (times point_add neutral digit p) }
{
    let twice = doubled(sum);
    let four_times = doubled(&twice);
    let eight_times = doubled(&four_times);
    doubled(&eight_times).add(&row[digit as usize])
}

// The multiples of a point by 0 to 15, prepared for additions.
fn row_of(point: &Point) -> [Addend; 16]
    ensures { IsRow addend_of point_add neutral point.now result }
{
    let mut row = [
        Addend::of(&Point::neutral()),
        Addend::of(&Point::neutral()),
        Addend::of(&Point::neutral()),
        Addend::of(&Point::neutral()),
        Addend::of(&Point::neutral()),
        Addend::of(&Point::neutral()),
        Addend::of(&Point::neutral()),
        Addend::of(&Point::neutral()),
        Addend::of(&Point::neutral()),
        Addend::of(&Point::neutral()),
        Addend::of(&Point::neutral()),
        Addend::of(&Point::neutral()),
        Addend::of(&Point::neutral()),
        Addend::of(&Point::neutral()),
        Addend::of(&Point::neutral()),
        Addend::of(&Point::neutral()),
    ];
    let addend = Addend::of(point);
    let mut entry = Point::neutral();
    for place in 0..16usize {
        row[place] = Addend::of(&entry);
        entry = entry.add(&addend);
    }
    row
}

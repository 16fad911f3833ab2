//! Rows of a point's multiples.

ghost use Rattle.std.specs.Prelude.{◌≡◌, ◌<◌, ◌+◌, ℕ, IfOk, OnOk, length, slice_index_or};
ghost use Rattle.p384_curve.specs.declared.point.Point.{Point as APoint};
ghost use Rattle.p384_curve.specs.Points.{neutral, point_add};
ghost use Rattle.group_laws.specs.Digits.{times};

use p384_curve::Point;
use std::alloc::AllocError;

/// Entries of a row: one for each digit.
pub const WIDTH: usize = 32;

/// Appends the multiples of a point by 0 to 31, and gives that by 32.
pub fn push_row(entries: &mut Vec<Point>, step: &Point) -> Result<Point, AllocError>
    ensures next { IfOk result (λ next. next ≡ times point_add neutral 32 step.now) }
    ensures size { OnOk result (length entries.new.items ≡ length entries.old.items + 32) }
    ensures kept { OnOk result ((place : ℕ) (other : APoint) → place < length entries.old.items
        → slice_index_or entries.new.items place other ≡ slice_index_or entries.old.items place other) }
    ensures row { OnOk result ((place : ℕ) (other : APoint) → place < 32
        → slice_index_or entries.new.items (length entries.old.items + place) other
        ≡ times point_add neutral place step.now) }
{
    let mut entry = Point::neutral();
    for _place in 0..WIDTH {
        let next = entry.add(step);
        entries.push(entry)?;
        entry = next;
    }
    Ok(entry)
}

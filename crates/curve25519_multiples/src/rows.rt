//! Rows of a point's multiples.

ghost use Rattle.std.specs.Prelude.{◌≡◌, ◌<◌, ◌+◌, ℕ, IfOk, OnOk, length, slice_index_or};
ghost use Rattle.curve25519.specs.declared.point.Addend.{Addend as AnAddend};
ghost use Rattle.curve25519.specs.Points.{addend_of, neutral, point_add};
ghost use Rattle.group_laws.specs.Digits.{times};

use curve25519::{Addend, Point};
use std::alloc::AllocError;

/// Entries of a row: one for each digit.
pub const WIDTH: usize = 32;

/// Appends the multiples of a point by 0 to 31, and gives that by 32.
pub fn push_row(entries: &mut Vec<Addend>, step: &Point) -> Result<Point, AllocError>
    ensures next { IfOk result (λ next. next ≡ times point_add neutral 32 step.now) }
    ensures size { OnOk result (length entries.new.items ≡ length entries.old.items + 32) }
    ensures kept { OnOk result ((place : ℕ) (other : AnAddend) → place < length entries.old.items
        → slice_index_or entries.new.items place other ≡ slice_index_or entries.old.items place other) }
    ensures row { OnOk result ((place : ℕ) (other : AnAddend) → place < 32
        → slice_index_or entries.new.items (length entries.old.items + place) other
        ≡ addend_of (times point_add neutral place step.now)) }
{
    let addend = Addend::of(step);
    let mut entry = Point::neutral();
    for _place in 0..WIDTH {
        entries.push(Addend::of(&entry))?;
        entry = entry.add(&addend);
    }
    Ok(entry)
}

//! The multiples of P-384's base point in a table, so that any multiple of it is a sum of few.

ghost use Rattle.std.specs.Prelude.{◌≡◌, ◌<◌, ◌≤◌, ◌+◌, ◌*◌, ◌^◌};
ghost use Rattle.p384_curve.specs.Encoding.{affine_x, encoded};
ghost use Rattle.p384_curve.specs.Multiples.{choose, multiply};
ghost use Rattle.p384_curve.specs.Points.{base, base_x, base_y, neutral, point_add};
ghost use Rattle.curve_laws.specs.P384.{Affine, At, Infinity, IsGroupSum, StandsFor};
ghost use Rattle.group_laws.specs.Digits.{by_digits, step_of, times, IsTable};
ghost use Rattle.group_laws.specs.Groups.{IsMultiple};

use crate::rows::{WIDTH, push_row};
use p384_curve::Point;
use std::alloc::{AllocError, Global};
use wide_words::{Digit, U384};

// One for each digit of a number.
const ROWS: usize = 77;

/// [j 32^i]G for i from 0 to 76 and j from 0 to 31: 347 KiB on the heap. With it a multiple of the base point
/// takes an addition for each five bits, and no doubling.
#[derive(Drop)]
pub struct BaseTable {
    entries: Vec<Point>,
    ghost prepared: { IsTable (λ p. p) point_add neutral base 77 entries.items },
}

impl BaseTable {
    /// The table. Fails for want of memory alone.
    pub fn new(alloc: Global) -> Result<BaseTable, AllocError> {
        let mut entries = Vec::new(alloc);
        let mut step = Point::base();
        for _row in 0..ROWS {
            step = push_row(&mut entries, &step)?;
        }
        Ok(BaseTable { entries })
    }

    /// [s]G: coordinates that stand for it, with its x and its encoding. The steps, and the places that are read, are
    /// the same for each s.
    #[inline(never)]
    pub fn multiple(&self, s: &U384) -> Point
        requires { s.now < 2 ^ 384 }
        ensures stands { (z : Affine) → IsMultiple IsGroupSum Infinity (At base_x base_y) s.now z
            → StandsFor result z }
        ensures x { affine_x result ≡ affine_x (multiply s.now base) }
        ensures encoded { encoded result ≡ encoded (multiply s.now base) }
    {
        self.sum_of_entries(s)
    }

    // The sum of one entry of each row.
    #[inline(always)]
    fn sum_of_entries(&self, s: &U384) -> Point
        ensures { result ≡ by_digits point_add neutral 77 0 s.now base neutral }
    {
        let mut sum = Point::neutral();
        let mut rest = s.copied();
        for row in 0..ROWS {
            sum = sum.add(&self.entry(row, rest.low_digit()));
            rest = rest.without_digit();
        }
        sum
    }

    // The entry of a row for a digit. All of the row are read, and one is kept by five choices, each under a mask that is made
    // of a bit of the number: of whether two digits are the same a compiler makes a branch.
    #[inline(always)]
    fn entry(&self, row: usize, digit: Digit) -> Point
        requires row { row < 77 }
        requires ones { digit.ones ≤ 1 }
        requires twos { digit.twos ≤ 1 }
        requires fours { digit.fours ≤ 1 }
        requires eights { digit.eights ≤ 1 }
        requires sixteens { digit.sixteens ≤ 1 }
        ensures { result ≡ times point_add neutral
            (digit.ones + 2 * digit.twos + 4 * digit.fours + 8 * digit.eights + 16 * digit.sixteens)
            (step_of point_add neutral row base) }
    {
        let low = self.of_sixteen(row, 0, digit);
        let high = self.of_sixteen(row, 16, digit);
        chosen(&low, &high, digit.sixteens)
    }

    // One of sixteen entries of a row from a place on.
    #[inline(always)]
    fn of_sixteen(&self, row: usize, place: usize, digit: Digit) -> Point
        requires row { row < 77 }
        requires place { place + 15 < 32 }
        requires ones { digit.ones ≤ 1 }
        requires twos { digit.twos ≤ 1 }
        requires fours { digit.fours ≤ 1 }
        requires eights { digit.eights ≤ 1 }
        ensures { result ≡ times point_add neutral (place + digit.ones + 2 * digit.twos + 4 * digit.fours + 8 * digit.eights)
            (step_of point_add neutral row base) }
    {
        let low = self.of_eight(row, place, digit);
        let high = self.of_eight(row, place + 8, digit);
        chosen(&low, &high, digit.eights)
    }

    // One of eight.
    #[inline(always)]
    fn of_eight(&self, row: usize, place: usize, digit: Digit) -> Point
        requires row { row < 77 }
        requires place { place + 7 < 32 }
        requires ones { digit.ones ≤ 1 }
        requires twos { digit.twos ≤ 1 }
        requires fours { digit.fours ≤ 1 }
        ensures { result ≡ times point_add neutral (place + digit.ones + 2 * digit.twos + 4 * digit.fours)
            (step_of point_add neutral row base) }
    {
        let low = self.of_four(row, place, digit);
        let high = self.of_four(row, place + 4, digit);
        chosen(&low, &high, digit.fours)
    }

    // One of four.
    #[inline(always)]
    fn of_four(&self, row: usize, place: usize, digit: Digit) -> Point
        requires row { row < 77 }
        requires place { place + 3 < 32 }
        requires ones { digit.ones ≤ 1 }
        requires twos { digit.twos ≤ 1 }
        ensures { result ≡ times point_add neutral (place + digit.ones + 2 * digit.twos)
            (step_of point_add neutral row base) }
    {
        let low = self.of_two(row, place, digit.ones);
        let high = self.of_two(row, place + 2, digit.ones);
        chosen(&low, &high, digit.twos)
    }

    // One of two.
    #[inline(always)]
    fn of_two(&self, row: usize, place: usize, ones: u64) -> Point
        requires row { row < 77 }
        requires place { place + 1 < 32 }
        requires ones { ones ≤ 1 }
        ensures { result ≡ times point_add neutral (place + ones) (step_of point_add neutral row base) }
    {
        let low = self.at(row, place);
        let high = self.at(row, place + 1);
        chosen(low, high, ones)
    }

    // The entry at a place of a row.
    #[inline(always)]
    fn at(&self, row: usize, place: usize) -> &Point
        requires row { row < 77 }
        requires place { place < 32 }
        ensures { result.now ≡ times point_add neutral place (step_of point_add neutral row base) }
    {
        &self.entries[WIDTH * row + place]
    }
}

// The second point where the bit is 1, else the first, with no branch.
#[inline(always)]
fn chosen(first: &Point, second: &Point, bit: u64) -> Point
    requires { bit ≤ 1 }
    ensures { result ≡ choose bit first.now second.now }
{
    let mut found = first.copied();
    found.replace_if(second, bit);
    found
}

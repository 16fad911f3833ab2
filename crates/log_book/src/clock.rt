//! The date and the time of a second.

ghost use Rattle.std.specs.Prelude.{◌≡◌, ◌<◌, ◌++◌, OnOk};
ghost use Rattle.log_book.specs.Dates.{clock_text, date_of, date_text, second_text, two, year_text};
ghost use Rattle.log_book.specs.declared.clock.Day.{Day};

use schedule_text::put_number;
use std::alloc::AllocError;

/// A year, a month from 1 to 12, and a day of it from 1.
#[derive(Clone, Copy)]
pub struct Day {
    pub year: u64,
    pub month: u64,
    pub day: u64,
}

// The date of a day since 1970: the year begins on the 1st of March, so that its leap day ends it.
#[tactic(auto, unfolding(crate::specs::Dates::date_of))]
fn date_of(day: u64) -> Day
    requires { day < 1000000000000000 }
    ensures { result ≡ date_of day }
{
    let march_days = day + 719468;
    let era = march_days / 146097;
    let in_era = march_days % 146097;
    let year = (in_era.saturating_sub(in_era / 1460) + in_era / 36524).saturating_sub(
        in_era / 146096,
    ) / 365;
    let before = (365 * year + year / 4).saturating_sub(year / 100);
    let in_year = in_era.saturating_sub(before);
    let march = (5 * in_year + 2) / 153;
    let day = in_year.saturating_sub((153 * march + 2) / 5) + 1;
    let year = era * 400 + year;
    if march < 10 {
        Day {
            year,
            month: march + 3,
            day,
        }
    } else {
        Day {
            year: year + 1,
            month: march.saturating_sub(9),
            day,
        }
    }
}

// Appends two digits.
fn put_two(out: &mut Vec<u8>, number: u64) -> Result<(), AllocError>
    ensures { OnOk result (out.new.items ≡ out.old.items ++ two number) }
{
    out.push(48 + (number / 10 % 10) as u8)?;
    out.push(48 + (number % 10) as u8)?;
    Ok(())
}

// Appends a year, in four digits at least.
fn put_year(out: &mut Vec<u8>, year: u64) -> Result<(), AllocError>
    ensures { OnOk result (out.new.items ≡ out.old.items ++ year_text year) }
{
    if year < 10000 {
        put_two(out, year / 100)?;
        put_two(out, year % 100)
    } else {
        put_number(out, year)
    }
}

fn put_date(out: &mut Vec<u8>, date: Day) -> Result<(), AllocError>
    ensures { OnOk result (out.new.items ≡ out.old.items ++ date_text date) }
{
    put_year(out, date.year)?;
    out.push(b'-')?;
    put_two(out, date.month)?;
    out.push(b'-')?;
    put_two(out, date.day)
}

fn put_clock(out: &mut Vec<u8>, second: u64) -> Result<(), AllocError>
    ensures { OnOk result (out.new.items ≡ out.old.items ++ clock_text second) }
{
    put_two(out, second / 3600)?;
    out.push(b':')?;
    put_two(out, second % 3600 / 60)?;
    out.push(b':')?;
    put_two(out, second % 60)
}

/// Appends the date and the time of a second since 1970, by UTC.
#[tactic(auto, unfolding(crate::specs::Dates::second_text))]
pub fn put_second(out: &mut Vec<u8>, second: u64) -> Result<(), AllocError>
    ensures { OnOk result (out.new.items ≡ out.old.items ++ second_text second) }
{
    put_date(out, date_of(second / 86400))?;
    out.push(b'T')?;
    put_clock(out, second % 86400)?;
    out.push(b'Z')?;
    Ok(())
}

// Dates and day numbers.
ghost use Rattle.std.specs.Prelude.{◌≡◌, true, ◌<◌, nat_abs, pos, ◌+ℤ◌};
ghost use Rattle.std.proofs.Math.IntN.{sub_ℕ};
ghost use Rattle.month_lengths.specs.Lengths.{year_at, year_days};
ghost use Rattle.refusal.specs.Answers.{answer_of};
ghost use Rattle.gregorian.specs.Gregorian.{years_to, days_of_years, epoch_day};
ghost use Rattle.gregorian.specs.Dates.{good_year, good_day_number, date_in_year};
ghost use Rattle.gregorian.specs.Answers.{day_for, date_for};
ghost use Rattle.gregorian.specs.Parts.{day_in_year};

use crate::months::{days_before_month, month_of};
use crate::years::{days_before_year, year_of};
use month_lengths::{is_leap, length_of_month};
use refusal::Refusal;

// A date. Months and days count from 1.
#[derive(Clone, Copy, Debug, PartialEq, Eq)]
pub struct Date {
    pub year: i64,
    pub month: u64,
    pub day: u64,
}

// The days from 1 January -10000 to 1 January 1970, the day number 0.
pub const EPOCH_DAY: i64 = 4371953;

// How many years a year is after -10000. (Kept: `year_walk` has the same inside, and says why.)
fn years_to(year: i64) -> u64
    requires { good_year year ≡ true }
    ensures { (result ≡ years_to year) × (result < 20000) }
{
    (year + 10000) as u64
}

// How many days a day number is after 1 January -10000.
fn days_to(number: i64) -> u64
    requires { good_day_number number ≡ true }
    ensures { (result ≡ nat_abs (number +ℤ pos epoch_day)) × (result < days_of_years 20000) }
{
    (number + EPOCH_DAY) as u64
}

// The day number of the day so many days after 1 January -10000.
fn number_at(days: u64) -> i64
    requires { days < 10000000 }
    ensures { result ≡ sub_ℕ days epoch_day }
{
    days as i64 - EPOCH_DAY
}

// The day number of a month and a day in a year.
#[tactic(auto, using(month_lengths::proofs::Months::month_most, crate::proofs::YearSums::years_high, crate::proofs::MonthSums::months_most, crate::proofs::Tests::month_day_good, crate::proofs::Days::number, crate::proofs::Days::days_in_year))]
fn day_in_year(years: u64, month: u64, day: u64) -> Result<i64, Refusal>
    requires { years < 20000 }
    ensures { answer_of result ≡ day_in_year (year_at years) month day }
{
    if month < 1 {
        return Err(Refusal::Fields);
    }
    if 12 < month {
        return Err(Refusal::Fields);
    }
    if day < 1 {
        return Err(Refusal::Fields);
    }
    let leap = is_leap(years);
    if length_of_month(leap, month - 1) < day {
        return Err(Refusal::Fields);
    }
    let start = days_before_year(years) + days_before_month(leap, month - 1);
    Ok(number_at(start + (day - 1)))
}

// The date of a year and the days that have passed in it.
fn date_in_year(years: u64, left: u64) -> Date
    requires { (years < 20000) × (left < year_days (year_at years)) }
    ensures { result ≡ date_in_year years left }
{
    let found = month_of(is_leap(years), left);
    Date {
        year: years as i64 - 10000,
        month: found.whole + 1,
        day: found.left + 1,
    }
}

// The day number of a date.
//
// Kept: three numbers beside `Date`, since it is a call that stands (docs/CONTRACTS.md).
pub fn day_of(year: i64, month: u64, day: u64) -> Result<i64, Refusal>
    ensures { answer_of result ≡ day_for year month day }
{
    if year < -9999 {
        return Err(Refusal::Fields);
    }
    if 9999 < year {
        return Err(Refusal::Fields);
    }
    day_in_year(years_to(year), month, day)
}

// The date of a day number.
#[tactic(auto, using(crate::proofs::Tests::number_early, crate::proofs::Tests::number_late, crate::proofs::Tests::number_good, crate::proofs::Days::date_at_lem))]
pub fn date_of(number: i64) -> Result<Date, Refusal>
    ensures { answer_of result ≡ date_for number }
{
    if number < -4371587 {
        return Err(Refusal::Window);
    }
    if 2932896 < number {
        return Err(Refusal::Window);
    }
    let found = year_of(days_to(number));
    Ok(date_in_year(found.whole, found.left))
}

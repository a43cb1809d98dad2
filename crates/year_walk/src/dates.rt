// Dates and day numbers, over the years and the months.
ghost use Rattle.std.specs.Prelude.{◌≡◌, true};
ghost use Rattle.gregorian.specs.Gregorian.{years_to, day_number};
ghost use Rattle.gregorian.specs.Dates.{good_year, good_date, good_day_number, date_at};

use crate::passed::{days_before, passed_at};
use crate::periods::{Months, Years};
use gregorian::{Date, EPOCH_DAY};
use month_lengths::{is_leap, length_of_month};

// How many years a year is after -10000.
//
// Kept: `gregorian` has the same inside. It asks for a good year, and what a crate passes on asks nothing: a rule of the project
// (docs/CONTRACTS.md).
fn years_to(year: i64) -> u64
    requires { good_year year ≡ true }
    ensures { result ≡ years_to year }
{
    (year + 10000) as u64
}

// Whether there is such a date. A month after December has no days, so it has none of them.
//
// Kept: three numbers beside `Date`, here and in `day_of`: it was tried, and the proof of `seconds_of` did not close.
pub fn is_date(year: i64, month: u64, day: u64) -> bool
    ensures { result ≡ good_date year month day }
{
    if year < -9999 {
        return false;
    }
    if 9999 < year {
        return false;
    }
    if month < 1 {
        return false;
    }
    if day < 1 {
        return false;
    }
    day <= length_of_month(is_leap(years_to(year)), month - 1)
}

// The day number of a date.
pub fn day_of(year: i64, month: u64, day: u64) -> i32
    requires { good_date year month day ≡ true }
    ensures { result ≡ day_number year month day }
{
    let years = years_to(year);
    let leap = is_leap(years);
    let start = days_before(Years, years) + days_before(Months { leap }, month - 1);
    (start + (day - 1)) as i32 - EPOCH_DAY as i32
}

// The date of a day number.
pub fn date_of(number: i64) -> Date
    requires { good_day_number number ≡ true }
    ensures { result ≡ date_at number }
{
    let year = passed_at(Years, (number + EPOCH_DAY) as u64);
    let leap = is_leap(year.whole);
    let month = passed_at(Months { leap }, year.left);
    Date {
        year: year.whole as i64 - 10000,
        month: month.whole + 1,
        day: month.left + 1,
    }
}

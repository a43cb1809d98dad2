// The years, counted from -10000: the days before a year, and the year of a day.
ghost use Rattle.std.specs.Prelude.{◌≡◌, ◌≤◌, ◌<◌};
ghost use Rattle.gregorian.specs.Gregorian.{days_of_years};
ghost use Rattle.gregorian.specs.Parts.{InYear};

use crate::passed::Passed;

// The days before a year: 365 for each, and one for each leap year.
#[tactic(auto, using(crate::proofs::YearSums::closed_is))]
pub fn days_before_year(years: u64) -> u64
    requires { years ≤ 20000 }
    ensures { result ≡ days_of_years years }
{
    365 * years + (years + 3) / 4 + (years + 399) / 400 - (years + 99) / 100
}

// The year of a day. 400 years have 146,097 days, which gives the year, or the one after.
#[tactic(auto, using(crate::proofs::YearSums::all_years, crate::proofs::YearSums::guess_some, crate::proofs::YearSums::guess_before, crate::proofs::YearSums::guess_right, crate::proofs::YearSums::guess_late))]
pub fn year_of(day: u64) -> Passed
    requires { day < days_of_years 20000 }
    ensures { InYear day result.whole result.left }
{
    let guess = 400 * (day + 1) / 146097;
    let before = days_before_year(guess);
    if before <= day {
        return Passed {
            whole: guess,
            left: day - before,
        };
    }
    let years = guess - 1;
    Passed {
        whole: years,
        left: day - days_before_year(years),
    }
}

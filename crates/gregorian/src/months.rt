// The days before a month, and the month of a day of a year. A month is counted from 0 here.
ghost use Rattle.std.specs.Prelude.{◌≡◌, ◌≤◌, ◌<◌};
ghost use Rattle.month_lengths.specs.Lengths.{days_of_months};
ghost use Rattle.gregorian.specs.Parts.{lacking_of, InMonth};

use crate::passed::Passed;
use month_lengths::length_of_month;

// What February lacks of 30 days, of a month after it.
fn lacking(leap: bool, month: u64) -> u64
    ensures { result ≡ lacking_of leap month }
{
    if month < 2 {
        return 0;
    }
    if leap { 1 } else { 2 }
}

// The days before a month. Without February's lack they are 30 or 31 a month, spread evenly.
#[tactic(auto, using(crate::proofs::MonthSums::closed_is))]
pub fn days_before_month(leap: bool, month: u64) -> u64
    requires { month ≤ 12 }
    ensures { result ≡ days_of_months leap month }
{
    (489 * month + 8) / 16 - lacking(leap, month)
}

// The month of a day of a year. The day over 32 is the month, or the one before.
pub fn month_of(leap: bool, day: u64) -> Passed
    requires { day < days_of_months leap 12 }
    ensures { InMonth leap day result.whole result.left }
{
    let guess = day / 32;
    let left = day - days_before_month(leap, guess);
    let length = length_of_month(leap, guess);
    if left < length {
        Passed { whole: guess, left }
    } else {
        Passed {
            whole: guess + 1,
            left: left - length,
        }
    }
}

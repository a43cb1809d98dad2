// The calendar's first engine: six fields to seconds and seconds to six fields, for every input. Each call takes the same time
// for every year. `year_walk` is the plain engine beside it, and `day_time` has what both share.
#![tactic(auto)]

ghost use Rattle.std.specs.Prelude.{◌≡◌, ◌<◌, ◌*◌, ◌^◌, true, nat_abs, pos, ◌+ℤ◌};
ghost use Rattle.refusal.specs.Answers.{answer_of};
ghost use Rattle.signed.specs.Floor.{floor_div, floor_rem};
ghost use Rattle.gregorian.specs.Gregorian.{epoch_day};
ghost use Rattle.day_time.specs.Times.{in_window};
ghost use Rattle.day_time.specs.Answers.{seconds_for, fields_for};

use day_time::{Civil, on_date, seconds_on};
use gregorian::{EPOCH_DAY, date_of, day_of};
use instant::Instant;
use refusal::Refusal;

// The seconds of the civil time of six numbers.
//
// Kept: six numbers beside `Civil`, since it is a call that stands (docs/CONTRACTS.md).
pub fn seconds_at(
    year: i64,
    month: u64,
    day: u64,
    hour: u64,
    minute: u64,
    second: u64,
) -> Result<i64, Refusal>
    ensures { answer_of result ≡ seconds_for (record { year = year; month = month; day = day; hour = hour; minute = minute; second = second }) }
{
    let number = day_of(year, month, day)?;
    seconds_on(number as i32, hour, minute, second)
}

// The seconds of a civil time.
pub fn seconds_of(time: Civil) -> Result<i64, Refusal>
    ensures { answer_of result ≡ seconds_for time }
{
    seconds_at(
        time.year,
        time.month,
        time.day,
        time.hour,
        time.minute,
        time.second,
    )
}

// The seconds from 1 January -10000 to 1 January 1970.
const EPOCH_SECONDS: i64 = EPOCH_DAY * 86400;

// Seconds of the window from 1 January -10000 on, which is whole days before 1970: what is divided below is then never
// negative, and dividing it rounds the seconds down.
fn raised(seconds: i64) -> u64
    requires { in_window seconds ≡ true }
    ensures { (result ≡ nat_abs (seconds +ℤ pos (epoch_day * 86400))) × (result < 2 ^ 40) }
{
    (seconds + EPOCH_SECONDS) as u64
}

// The number of the day that some seconds of the window lie in, and the seconds that have passed of that day.
fn day_and_passed(seconds: i64) -> (i64, u64)
    requires { in_window seconds ≡ true }
    ensures day { result.0 ≡ floor_div seconds 86400 }
    ensures passed { result.1 ≡ floor_rem seconds 86400 }
{
    let raised = raised(seconds);
    ((raised / 86400) as i64 - EPOCH_DAY, raised % 86400)
}

// The civil time of some seconds.
pub fn fields_of(seconds: i64) -> Result<Civil, Refusal>
    ensures { answer_of result ≡ fields_for seconds }
{
    if seconds < Instant::FIRST {
        return Err(Refusal::Window);
    }
    if Instant::LAST < seconds {
        return Err(Refusal::Window);
    }
    let (day, passed) = day_and_passed(seconds);
    let date = date_of(day)?;
    Ok(on_date(date, passed))
}

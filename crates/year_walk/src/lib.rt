// The calendar's second engine: the seconds of a civil time, and the civil time of some seconds, by going through the
// years and the months one by one.
//
// It adds up the lengths that the definition of the calendar adds up: slower than `civil`, and plain to read. Both meet
// the same contracts, which allow one answer, so they agree on every input.
#![tactic(auto)]

ghost use Rattle.std.specs.Prelude.{◌≡◌};
ghost use Rattle.refusal.specs.Answers.{answer_of};
ghost use Rattle.day_time.specs.Answers.{seconds_for, fields_for};

mod dates;
mod passed;
mod periods;

use crate::dates::{date_of, day_of, is_date};
use day_time::{Civil, on_date, seconds_on};
use instant::Instant;
use refusal::Refusal;
use signed::{div_floor, rem_floor};

// The seconds of a civil time.
#[tactic(auto, using(day_time::proofs::Days::some_day))]
pub fn seconds_of(time: Civil) -> Result<i64, Refusal>
    ensures { answer_of result ≡ seconds_for time }
{
    if is_date(time.year, time.month, time.day) {
        let number = day_of(time.year, time.month, time.day);
        return seconds_on(number, time.hour, time.minute, time.second);
    }
    Err(Refusal::Fields)
}

// The civil time of some seconds.
pub fn fields_of(seconds: i64) -> Result<Civil, Refusal>
    ensures { answer_of result ≡ fields_for seconds }
{
    if seconds < Instant::FIRST {
        return Err(Refusal::Window);
    }
    if Instant::LAST < seconds {
        return Err(Refusal::Window);
    }
    let date = date_of(div_floor(seconds, 86400));
    Ok(on_date(date, rem_floor(seconds, 86400)))
}

// Civil times, and the time of day.
ghost use Rattle.std.specs.Prelude.{◌≡◌};
ghost use Rattle.refusal.specs.Answers.{answer_of};
ghost use Rattle.day_time.specs.Times.{on_date};
ghost use Rattle.day_time.specs.Answers.{seconds_on};

use gregorian::Date;
use instant::Instant;
use refusal::Refusal;

// A civil time in UTC. Months and days count from 1.
#[derive(Clone, Copy)]
pub struct Civil {
    pub year: i64,
    pub month: u64,
    pub day: u64,
    pub hour: u64,
    pub minute: u64,
    pub second: u64,
}

// The seconds of a time of day on the day of a number.
pub fn seconds_on(number: i32, hour: u64, minute: u64, second: u64) -> Result<i64, Refusal>
    ensures { answer_of result ≡ seconds_on number hour minute second }
{
    if 23 < hour {
        return Err(Refusal::Fields);
    }
    if 59 < minute {
        return Err(Refusal::Fields);
    }
    if 59 < second {
        return Err(Refusal::Fields);
    }
    let passed = hour * 3600 + minute * 60 + second;
    let total = number as i64 * 86400 + passed as i64;
    if total < Instant::FIRST {
        return Err(Refusal::Fields);
    }
    if Instant::LAST < total {
        return Err(Refusal::Fields);
    }
    Ok(total)
}

// The civil time of a date and the seconds that have passed of its day.
pub fn on_date(date: Date, passed: u64) -> Civil
    ensures { result ≡ on_date date passed }
{
    Civil {
        year: date.year,
        month: date.month,
        day: date.day,
        hour: passed / 3600,
        minute: passed % 3600 / 60,
        second: passed % 60,
    }
}

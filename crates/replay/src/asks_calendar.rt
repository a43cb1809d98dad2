// The calendar, by one of its engines, `civil` and `year_walk`.
use crate::answers::say;
use crate::numbers::narrow_in;
use day_time::Civil;
use decimal::number_in;
use refusal::Refusal;
use texts::{after_space, before_space};

// What stands before a text's first space as a field, which is not negative, and what stands after it.
fn field_in(text: &[u8]) -> Option<u64> {
    narrow_in(before_space(text))
}

// A year and five fields that are not negative. The last field is all that is left, so that a seventh spoils it.
fn time_in(text: &[u8]) -> Option<Civil> {
    let months = after_space(text);
    let days = after_space(months);
    let hours = after_space(days);
    let minutes = after_space(hours);
    Some(Civil {
        year: number_in(before_space(text))?,
        month: field_in(months)?,
        day: field_in(days)?,
        hour: field_in(hours)?,
        minute: field_in(minutes)?,
        second: narrow_in(after_space(minutes))?,
    })
}

// YEAR MONTH DAY HOUR MINUTE SECOND.
pub fn seconds<F: Fn(Civil) -> Result<i64, Refusal>>(
    engine: F,
    text: &[u8],
    out: &mut [u8],
) -> Option<usize>
    requires { F.IsAlwaysCallable engine }
{
    Some(say(out, engine(time_in(text)?)))
}

// SECONDS.
pub fn fields<F: Fn(i64) -> Result<Civil, Refusal>>(
    engine: F,
    text: &[u8],
    out: &mut [u8],
) -> Option<usize>
    requires { F.IsAlwaysCallable engine }
{
    Some(say(out, engine(number_in(text)?)))
}

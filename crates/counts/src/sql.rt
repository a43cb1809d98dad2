// Layout 16: days from 1900-01-01 and ticks of 1/300 second.
//
// Ported from timeglyph's src/registry.rs (Apache-2.0; see NOTICE), and changed.
ghost use Rattle.std.specs.Prelude.{◌≡◌, ◌<◌, ◌^◌};
ghost use Rattle.std.specs.Int.Signed.{mag};
ghost use Rattle.refusal.specs.Answers.{answer_of};
ghost use Rattle.counts.specs.Sql.{sql_decode, sql_encode, day_word, rolled};

use instant::Instant;
use refusal::Refusal;
use signed::{div_floor, rem_floor, sign_extended};

pub fn decode_sql(bits: u64) -> Result<Instant, Refusal>
    ensures { answer_of result ≡ sql_decode bits }
{
    let ticks = bits % 4294967296;
    if 25920000 <= ticks {
        return Err(Refusal::Ticks);
    }
    let day = sign_extended(bits / 4294967296, 32);
    let seconds = day * 86400 + (ticks / 300) as i64 + Instant::EPOCH_1900;
    let nanos = (ticks % 300 * 10000000 / 3) as u32;
    Ok(Instant::new(seconds, nanos))
}

// A day above its ticks.
fn day_word(day: i64, ticks: u64) -> Result<i64, Refusal>
    requires { (mag day < 2 ^ 50) × (ticks < 2 ^ 32) }
    ensures { answer_of result ≡ day_word day ticks }
{
    if day < -2147483648 {
        return Err(Refusal::Count);
    }
    if 2147483647 < day {
        return Err(Refusal::Count);
    }
    Ok(day * 4294967296 + ticks as i64)
}

// A full day's ticks are tick 0 of the next day.
fn roll(day: i64, ticks: u64) -> Result<i64, Refusal>
    requires { (mag day < 2 ^ 49) × (ticks < 2 ^ 32) }
    ensures { answer_of result ≡ rolled day ticks }
{
    if ticks == 25920000 {
        return day_word(day + 1, 0);
    }
    day_word(day, ticks)
}

// From 1900-01-01 to 1970-01-01 are 25,567 whole days, so the time of day is the same from either.
pub fn encode_sql(t: Instant) -> Result<i64, Refusal>
    ensures { answer_of result ≡ sql_encode t }
{
    let nanos = t.nanos;
    if Instant::NANOS < nanos {
        return Err(Refusal::Nanos);
    }
    let seconds = t.seconds;
    let day = div_floor(seconds, 86400) + 25567;
    let rest = rem_floor(seconds, 86400) * 1000000000 + nanos as u64;
    roll(day, (3 * rest + 5000000) / 10000000)
}

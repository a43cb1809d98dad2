// Oracle DATE: seven bytes.
//
// Ported from timeglyph's src/compose.rs (Apache-2.0; see NOTICE), and changed.
ghost use Rattle.std.specs.Prelude.{◌≡◌};
ghost use Rattle.refusal.specs.Answers.{answer_of};
ghost use Rattle.day_time.specs.Answers.{seconds_for};
ghost use Rattle.byte_stamps.specs.OracleStamp.{less_one, oracle_fields, oracle_date};

use civil::seconds_at;
use day_time::Civil;
use instant::Instant;
use refusal::Refusal;

// A byte less 1. The hour, the minute and the second are stored plus 1: a byte of 0 there is -1, and 255 stands for it, since
// neither is an hour, a minute or a second.
//
// Kept: 255 for none: what may not change: `less_one` (specs/OracleStamp) says so.
fn less_one(byte: u8) -> u64
    ensures { result ≡ less_one byte }
{
    (byte as u64 + 255) % 256
}

// An Oracle DATE's civil time.
#[tactic(auto, using(crate::proofs::OracleYear::oracle_year))]
fn oracle_time(stamp: &[u8; 7]) -> Civil
    ensures { result ≡ oracle_fields stamp.now }
{
    let &[century, year, month, day, hour, minute, second] = stamp;
    Civil {
        year: (century as u64 * 100 + year as u64) as i64 - 10100,
        month: month as u64,
        day: day as u64,
        hour: less_one(hour),
        minute: less_one(minute),
        second: less_one(second),
    }
}

// Its seconds.
//
// Kept: by six numbers, for each stamp: so the calendar stands in line in each (docs/DECISIONS.md).
fn oracle_seconds(stamp: &[u8; 7]) -> Result<i64, Refusal>
    ensures { answer_of result ≡ seconds_for (oracle_fields stamp.now) }
{
    let time = oracle_time(stamp);
    seconds_at(
        time.year,
        time.month,
        time.day,
        time.hour,
        time.minute,
        time.second,
    )
}

#[tactic(auto, unfolding(crate::specs::OracleStamp::oracle_date))]
pub fn oracle_date(stamp: &[u8]) -> Result<Instant, Refusal>
    ensures { answer_of result ≡ oracle_date stamp.now }
{
    let Ok(stamp) = stamp.try_into() else {
        return Err(Refusal::Length);
    };
    // Kept: `let .. else` in place of `?`: a rule of the project: document 01 names this form for this place.
    let found = oracle_seconds(stamp);
    let Ok(seconds) = found else {
        return Err(found.unwrap_err());
    };
    Ok(Instant::at_second(seconds))
}

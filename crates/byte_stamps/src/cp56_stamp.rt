// CP56Time2a: seven bytes.
//
// Ported from timeglyph's src/compose.rs (Apache-2.0; see NOTICE), and changed.
ghost use Rattle.std.specs.Prelude.{◌≡◌};
ghost use Rattle.refusal.specs.Answers.{answer_of};
ghost use Rattle.day_time.specs.Answers.{seconds_for};
ghost use Rattle.byte_stamps.specs.Cp56Stamp.{cp56_fields, cp56};

use civil::seconds_at;
use day_time::Civil;
use instant::Instant;
use octets::get16;
use refusal::Refusal;

// A CP56Time2a's civil time: the milliseconds of the minute come first.
fn cp56_time(stamp: &[u8; 7]) -> Civil
    ensures { result ≡ cp56_fields stamp.now }
{
    let &[_, _, minute, hour, day, month, year] = stamp;
    Civil {
        year: 2000 + (year % 128) as i64,
        month: (month % 16) as u64,
        day: (day % 32) as u64,
        hour: (hour % 32) as u64,
        minute: (minute % 64) as u64,
        second: get16(stamp) as u64 / 1000,
    }
}

// Its seconds.
//
// Kept: by six numbers, for each stamp: so the calendar stands in line in each (docs/DECISIONS.md).
fn cp56_seconds(stamp: &[u8; 7]) -> Result<i64, Refusal>
    ensures { answer_of result ≡ seconds_for (cp56_fields stamp.now) }
{
    let time = cp56_time(stamp);
    seconds_at(
        time.year,
        time.month,
        time.day,
        time.hour,
        time.minute,
        time.second,
    )
}

#[tactic(auto, unfolding(crate::specs::Cp56Stamp::cp56))]
pub fn cp56time2a(stamp: &[u8]) -> Result<Instant, Refusal>
    ensures { answer_of result ≡ cp56 stamp.now }
{
    let Ok(stamp) = stamp.try_into() else {
        return Err(Refusal::Length);
    };
    // Kept: `let .. else` in place of `?`: a rule of the project: document 01 names this form for this place.
    let found = cp56_seconds(stamp);
    let Ok(seconds) = found else {
        return Err(found.unwrap_err());
    };
    let nanos = get16(stamp) as u32 % 1000 * 1000000;
    Ok(Instant::new(seconds, nanos))
}

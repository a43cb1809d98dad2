// The UDF timestamp: twelve bytes.
//
// Ported from timeglyph's src/compose.rs (Apache-2.0; see NOTICE), and changed.
ghost use Rattle.std.specs.Prelude.{◌≡◌, ◌<◌, ◌^◌, pos, ◌+ℤ◌, ◌-ℤ◌, ◌*ℤ◌};
ghost use Rattle.std.specs.Int.Signed.{mag};
ghost use Rattle.refusal.specs.Answers.{answer_of};
ghost use Rattle.day_time.specs.Answers.{seconds_for};
ghost use Rattle.byte_stamps.specs.UdfStamp.{udf_fields, udf_minutes, udf_parts, udf_stamp};

use civil::seconds_at;
use day_time::Civil;
use instant::Instant;
use octets::get16;
use refusal::Refusal;
use signed::sign_extended;

// A UDF timestamp's civil time.
fn udf_time(stamp: &[u8; 12]) -> Civil
    ensures { result ≡ udf_fields stamp.now }
{
    let &[_, _, _, _, month, day, hour, minute, second, _, _, _] = stamp;
    Civil {
        year: sign_extended(get16(&stamp[2..]) as u64, 16),
        month: month as u64,
        day: day as u64,
        hour: hour as u64,
        minute: minute as u64,
        second: second as u64,
    }
}

// Its seconds.
//
// Kept: by six numbers, for each stamp: so the calendar stands in line in each (docs/DECISIONS.md).
fn udf_seconds(stamp: &[u8; 12]) -> Result<i64, Refusal>
    ensures { answer_of result ≡ seconds_for (udf_fields stamp.now) }
{
    let time = udf_time(stamp);
    seconds_at(
        time.year,
        time.month,
        time.day,
        time.hour,
        time.minute,
        time.second,
    )
}

// The nanoseconds in its last three bytes.
fn udf_parts(stamp: &[u8; 12]) -> u64
    ensures { (result ≡ udf_parts stamp.now) × (result < 3000000000) }
{
    let &[.., hundredths, hundreds, micros] = stamp;
    hundredths as u64 * 10000000 + hundreds as u64 * 100000 + micros as u64 * 1000
}

// The minutes of its zone, which is in the low 12 bits of a word.
fn udf_minutes(zone: u64) -> i64
    ensures { (result ≡ udf_minutes zone) × (mag result < 4096) }
{
    if zone % 4096 == 2049 {
        return 0;
    }
    sign_extended(zone, 12)
}

// Seconds with some that are carried, and less the minutes of a zone.
fn moved(local: i64, carry: u64, zone: i64) -> i64
    requires { (mag local < 2 ^ 39) × (carry < 3) × (mag zone < 4096) }
    ensures { result ≡ local +ℤ pos carry -ℤ zone *ℤ pos 60 }
{
    local + carry as i64 - zone * 60
}

#[tactic(auto, unfolding(crate::specs::UdfStamp::udf_stamp))]
pub fn udf(stamp: &[u8]) -> Result<Instant, Refusal>
    ensures { answer_of result ≡ udf_stamp stamp.now }
{
    let Ok(stamp) = stamp.try_into() else {
        return Err(Refusal::Length);
    };
    // Kept: `let .. else` in place of `?`: a rule of the project: document 01 names this form for this place.
    let found = udf_seconds(stamp);
    let Ok(local) = found else {
        return Err(found.unwrap_err());
    };
    let parts = udf_parts(stamp);
    let zone = udf_minutes(get16(stamp) as u64);
    let seconds = moved(local, parts / 1000000000, zone);
    Ok(Instant::new(seconds, (parts % 1000000000) as u32))
}

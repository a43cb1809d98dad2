// The three composites that come in two numbers: FILETIME in halves, VMSD, and seconds with nanoseconds.
//
// Every call is total: it answers the instant, or a refusal and nothing else.
//
// Ported from timeglyph's src/compose.rs (Apache-2.0; see NOTICE), and changed.
#![tactic(auto)]

ghost use Rattle.std.specs.Prelude.{◌≡◌};
ghost use Rattle.refusal.specs.Answers.{answer_of};
ghost use Rattle.number_stamps.specs.NumberStamps.{filetime_hilo, vmsd_pair, unix_sec_nsec};

use instant::Instant;
use refusal::Refusal;
use signed::{div_floor, rem_floor};

// A FILETIME from its halves.
#[tactic(auto, using(signed::proofs::Sizes::less_fits, crate::proofs::NumberStamps::top_bit, crate::proofs::NumberStamps::no_top_bit))]
pub fn filetime_hilo(low: u32, high: u32) -> Result<Instant, Refusal>
    ensures { answer_of result ≡ filetime_hilo low high }
{
    if 2147483647 < high {
        return Err(Refusal::Range);
    }
    let ticks = high as u64 * 4294967296 + low as u64;
    let seconds = (ticks / 10000000) as i64 + Instant::EPOCH_1601;
    let nanos = (ticks % 10000000 * 100) as u32;
    Ok(Instant::new(seconds, nanos))
}

// Microseconds from 1970 in two halves.
#[tactic(auto, unfolding(crate::specs::NumberStamps::vmsd_pair))]
pub fn vmsd(high: i32, low: i32) -> Result<Instant, Refusal>
    ensures { answer_of result ≡ vmsd_pair high low }
{
    let micros = high as i64 * 4294967296 + low.cast_unsigned() as i64;
    let seconds = div_floor(micros, 1000000);
    let nanos = (rem_floor(micros, 1000000) * 1000) as u32;
    Ok(Instant::new(seconds, nanos))
}

// Seconds, and nanoseconds of up to four seconds more.
pub fn unix_sec_nsec(seconds: i64, nanos: u32) -> Result<Instant, Refusal>
    ensures { answer_of result ≡ unix_sec_nsec seconds nanos }
{
    let carry = (nanos / 1000000000) as i64;
    if i64::MAX - carry < seconds {
        return Err(Refusal::Carry);
    }
    Ok(Instant::new(seconds + carry, nanos % 1000000000))
}

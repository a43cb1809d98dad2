// The calls on one value for other languages, exported under C's rules, and nothing else. With those of `sleetrick_columns` they
// are libsleetrick.a.
//
// A call takes numbers and lent bytes, and answers one number. A result is written over one row of lent bytes, an instant over
// 12 and a word over 8, as `rows` has them, and only where the call answers 0; otherwise the bytes stay, and the number is the
// refusal, which is 11 where the bytes are not one row. specs/Numbers.antt has what else a number can say.
#![tactic(auto, unfolding(crate::specs::Calls::instant_call, crate::specs::Calls::word_call))]

ghost use Rattle.std.specs.Prelude.{◌≡◌};
ghost use Rattle.std.specs.Int.{w64, cast_unsigned};
ghost use Rattle.instant.specs.Instants.{at};
ghost use Rattle.registry.specs.Words.{decode_for, encode_for};
ghost use Rattle.number_stamps.specs.NumberStamps.{filetime_hilo, vmsd_pair, unix_sec_nsec};
ghost use Rattle.byte_stamps.specs.OracleStamp.{oracle_date};
ghost use Rattle.byte_stamps.specs.Cp56Stamp.{cp56};
ghost use Rattle.byte_stamps.specs.UdfStamp.{udf_stamp};
ghost use Rattle.sleetrick.specs.Calls.{instant_call, word_call};

mod hand;
mod numbers;

use byte_stamps::{cp56time2a, oracle_date, udf};
use hand::hand;
use instant::Instant;
use number_stamps::{filetime_hilo, unix_sec_nsec, vmsd};
use registry::{decode, encode};

// ---- one word

// The instant that a word says in a layout.
#[unsafe(no_mangle)]
pub extern "C" fn sleetrick_decode(layout: u32, word: i64, instant: &mut [u8]) -> u64
    ensures value { result ≡ (instant_call (decode_for layout (cast_unsigned w64 word)) instant.old).number }
    ensures instant_after { instant.new ≡ (instant_call (decode_for layout (cast_unsigned w64 word)) instant.old).bytes }
{
    hand(decode(layout, word), instant)
}

// The word of an instant in a layout.
#[unsafe(no_mangle)]
pub extern "C" fn sleetrick_encode(layout: u32, seconds: i64, nanos: u32, word: &mut [u8]) -> u64
    ensures value { result ≡ (word_call (encode_for layout (at seconds nanos)) word.old).number }
    ensures word_after { word.new ≡ (word_call (encode_for layout (at seconds nanos)) word.old).bytes }
{
    hand(encode(layout, Instant::new(seconds, nanos)), word)
}

// ---- composites in two numbers

#[unsafe(no_mangle)]
pub extern "C" fn sleetrick_filetime_hilo(low: u32, high: u32, instant: &mut [u8]) -> u64
    ensures value { result ≡ (instant_call (filetime_hilo low high) instant.old).number }
    ensures instant_after { instant.new ≡ (instant_call (filetime_hilo low high) instant.old).bytes }
{
    hand(filetime_hilo(low, high), instant)
}

#[unsafe(no_mangle)]
pub extern "C" fn sleetrick_vmsd(high: i32, low: i32, instant: &mut [u8]) -> u64
    ensures value { result ≡ (instant_call (vmsd_pair high low) instant.old).number }
    ensures instant_after { instant.new ≡ (instant_call (vmsd_pair high low) instant.old).bytes }
{
    hand(vmsd(high, low), instant)
}

#[unsafe(no_mangle)]
pub extern "C" fn sleetrick_unix_sec_nsec(seconds: i64, nanos: u32, instant: &mut [u8]) -> u64
    ensures value { result ≡ (instant_call (unix_sec_nsec seconds nanos) instant.old).number }
    ensures instant_after { instant.new ≡ (instant_call (unix_sec_nsec seconds nanos) instant.old).bytes }
{
    hand(unix_sec_nsec(seconds, nanos), instant)
}

// ---- composites in bytes

#[unsafe(no_mangle)]
pub extern "C" fn sleetrick_oracle_date(stamp: &[u8], instant: &mut [u8]) -> u64
    ensures value { result ≡ (instant_call (oracle_date stamp.now) instant.old).number }
    ensures instant_after { instant.new ≡ (instant_call (oracle_date stamp.now) instant.old).bytes }
{
    hand(oracle_date(stamp), instant)
}

#[unsafe(no_mangle)]
pub extern "C" fn sleetrick_cp56time2a(stamp: &[u8], instant: &mut [u8]) -> u64
    ensures value { result ≡ (instant_call (cp56 stamp.now) instant.old).number }
    ensures instant_after { instant.new ≡ (instant_call (cp56 stamp.now) instant.old).bytes }
{
    hand(cp56time2a(stamp), instant)
}

#[unsafe(no_mangle)]
pub extern "C" fn sleetrick_udf(stamp: &[u8], instant: &mut [u8]) -> u64
    ensures value { result ≡ (instant_call (udf_stamp stamp.now) instant.old).number }
    ensures instant_after { instant.new ≡ (instant_call (udf_stamp stamp.now) instant.old).bytes }
{
    hand(udf(stamp), instant)
}

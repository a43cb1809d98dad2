// Layout 15: seconds, counted towards 2050, with the four bytes reversed.
//
// Ported from timeglyph's src/registry.rs (Apache-2.0; see NOTICE), and changed.
ghost use Rattle.std.specs.Prelude.{◌≡◌};
ghost use Rattle.refusal.specs.Answers.{answer_of};
ghost use Rattle.counts.specs.Nokia.{nokia_decode, nokia_encode};

use byte_orders::reverse;
use instant::Instant;
use refusal::Refusal;

#[tactic(auto, using(crate::proofs::NokiaSeconds::reversed_small, crate::proofs::NokiaSeconds::no_count, crate::proofs::NokiaSeconds::counted, crate::proofs::NokiaSeconds::count_fits))]
pub fn decode_nokia(bits: u64) -> Result<Instant, Refusal>
    ensures { answer_of result ≡ nokia_decode bits }
{
    if 4294967295 < bits {
        return Err(Refusal::Range);
    }
    let p = reverse(bits) as i64;
    Ok(Instant::at_second(p - 4294967295 + Instant::EPOCH_2050))
}

// The first and the last second are those of p = 0 and of the largest p.
#[tactic(auto, using(signed::proofs::Differences::raised, signed::proofs::Machine::read_nat, instant::proofs::Nanos::no_nanos, crate::proofs::NokiaSeconds::reversed_small, crate::proofs::NokiaSeconds::count, crate::proofs::NokiaSeconds::count_small, crate::proofs::NokiaSeconds::early, crate::proofs::NokiaSeconds::late, crate::proofs::NokiaSeconds::in_range_lem), unfolding(crate::specs::Nokia::nokia_encode))]
pub fn encode_nokia(t: Instant) -> Result<i64, Refusal>
    ensures { answer_of result ≡ nokia_encode t }
{
    if Instant::NANOS < t.nanos {
        return Err(Refusal::Nanos);
    }
    let seconds = t.seconds;
    if seconds < -1770359295 {
        return Err(Refusal::Count);
    }
    if Instant::EPOCH_2050 < seconds {
        return Err(Refusal::Count);
    }
    let p = (seconds + 1770359295) as u64;
    let word = reverse(p) as i64;
    Ok(word)
}

// A zone byte, which layout 14 has besides its fields.
//
// Ported from timeglyph's src/registry.rs (Apache-2.0; see NOTICE), and changed.
ghost use Rattle.std.specs.Prelude.{◌≡◌, ◌<◌, ◌^◌};
ghost use Rattle.std.specs.Int.Signed.{mag};
ghost use Rattle.refusal.specs.Answers.{answer_of};
ghost use Rattle.registry.specs.Words.{less_zone};

use instant::Instant;
use refusal::Refusal;

// An instant less the offset of a zone byte: bit 3 is the sign, bits 0..2 are tens and the high nibble units of quarter
// hours.
#[tactic(auto, using(signed::proofs::Sizes::sum_fits, signed::proofs::Sizes::less_fits, crate::proofs::Zones::no_zone, crate::proofs::Zones::east, crate::proofs::Zones::west))]
pub fn less_zone(zone: u64, local: Instant) -> Result<Instant, Refusal>
    requires { (zone < 256) × (mag local.seconds < 2 ^ 39) }
    ensures { answer_of result ≡ less_zone zone local }
{
    let units = zone / 16;
    if 9 < units {
        return Err(Refusal::Zone);
    }
    let offset = ((zone % 8 * 10 + units) * 900) as i64;
    let seconds = local.seconds;
    if zone / 8 % 2 == 0 {
        return Ok(Instant::new(seconds - offset, local.nanos));
    }
    Ok(Instant::new(seconds + offset, local.nanos))
}

// Decoding: the instant that a word says.
//
// Ported from timeglyph's src/registry.rs (Apache-2.0; see NOTICE), and changed.
ghost use Rattle.std.specs.Prelude.{◌≡◌};
ghost use Rattle.std.specs.Int.{w64, cast_unsigned};
ghost use Rattle.refusal.specs.Answers.{answer_of};
ghost use Rattle.layouts.specs.Layouts.{layout_for};
ghost use Rattle.registry.specs.Words.{fields_decode, decode_by, decode_for};

use crate::rules::{Rule, pick};
use crate::zone::less_zone;
use civil::seconds_of;
use counts::{decode_nokia, decode_sql};
use instant::Instant;
use layouts::{Kind, layout_of};
use refusal::Refusal;
use signed::to_bits;
use unpacking::read_kind;

// The instant that a word's 64 bits say by the layout of a kind: its fields, their seconds, and then the zone, where the layout
// has one, which is the low byte.
#[tactic(auto, using(day_time::proofs::Answers::small_seconds), unfolding(crate::specs::Words::fields_decode, crate::specs::Words::local_decode))]
fn decode_kind(kind: Kind, bits: u64) -> Result<Instant, Refusal>
    ensures { answer_of result ≡ fields_decode (layout_for kind) bits }
{
    let time = read_kind(kind, bits)?;
    let local = Instant::at_second(seconds_of(time)?);
    if layout_of(kind).zoned {
        return less_zone(bits % 256, local);
    }
    Ok(local)
}

// The instant that a word's 64 bits say by a rule.
pub fn decode_bits(rule: Rule, bits: u64) -> Result<Instant, Refusal>
    ensures { answer_of result ≡ decode_by rule bits }
{
    match rule {
        Rule::Civil(kind) => decode_kind(kind, bits),
        Rule::NokiaLe => decode_nokia(bits),
        Rule::SqlServer => decode_sql(bits),
    }
}

// The instant that a word says, by the layout of a number.
pub fn decode(layout: u32, word: i64) -> Result<Instant, Refusal>
    ensures { answer_of result ≡ decode_for layout (cast_unsigned w64 word) }
{
    let rule = pick(layout)?;
    decode_bits(rule, to_bits(word))
}

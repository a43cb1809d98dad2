// Encoding: the word of an instant.
//
// Ported from timeglyph's src/registry.rs (Apache-2.0; see NOTICE), and changed.
ghost use Rattle.std.specs.Prelude.{◌≡◌};
ghost use Rattle.refusal.specs.Answers.{answer_of};
ghost use Rattle.layouts.specs.Layouts.{layout_for};
ghost use Rattle.registry.specs.Words.{fields_encode, encode_by, encode_for};

use crate::rules::{Rule, pick};
use counts::{encode_nokia, encode_sql};
use instant::Instant;
use layouts::Kind;
use packing::word_of;
use refusal::Refusal;

// The word of an instant by the layout of a kind.
#[tactic(auto, unfolding(crate::specs::Words::fields_encode))]
fn encode_kind(kind: Kind, t: Instant) -> Result<i64, Refusal>
    ensures { answer_of result ≡ fields_encode (layout_for kind) t }
{
    if Instant::NANOS < t.nanos {
        return Err(Refusal::Nanos);
    }
    word_of(kind, t.seconds)
}

// The word of an instant by a rule.
pub fn encode_by(rule: Rule, instant: Instant) -> Result<i64, Refusal>
    ensures { answer_of result ≡ encode_by rule instant }
{
    match rule {
        Rule::Civil(kind) => encode_kind(kind, instant),
        Rule::NokiaLe => encode_nokia(instant),
        Rule::SqlServer => encode_sql(instant),
    }
}

// The word of an instant, by the layout of a number.
pub fn encode(layout: u32, instant: Instant) -> Result<i64, Refusal>
    ensures { answer_of result ≡ encode_for layout instant }
{
    let rule = pick(layout)?;
    encode_by(rule, instant)
}

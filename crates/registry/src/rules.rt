// The layout number picks one of sixteen rules. A caller with many rows picks the rule once.
//
// Ported from timeglyph's src/registry.rs (Apache-2.0; see NOTICE), and changed.
ghost use Rattle.std.specs.Prelude.{◌≡◌};
ghost use Rattle.refusal.specs.Answers.{answer_of};
ghost use Rattle.registry.specs.Words.{rule_for};

use layouts::Kind;
use refusal::Refusal;

// Civil fields of a kind, and two that count from an epoch.
#[derive(Clone, Copy)]
pub enum Rule {
    Civil(Kind),
    NokiaLe,
    SqlServer,
}

// The rule of a layout number.
//
// Kept: `pick` is a call that stands (docs/CONTRACTS.md), and a `TryFrom` beside it would say the same again.
#[tactic(auto, unfolding(crate::specs::Words::rule_for))]
pub fn pick(layout: u32) -> Result<Rule, Refusal>
    ensures { answer_of result ≡ rule_for layout }
{
    match layout {
        1 => Ok(Rule::Civil(Kind::FatDos)),
        2 => Ok(Rule::Civil(Kind::ExFat)),
        3 => Ok(Rule::Civil(Kind::Dttm)),
        4 => Ok(Rule::Civil(Kind::BitDate)),
        5 => Ok(Rule::Civil(Kind::BitDec)),
        6 => Ok(Rule::Civil(Kind::Bcd)),
        7 => Ok(Rule::Civil(Kind::Moto)),
        8 => Ok(Rule::Civil(Kind::Symantec)),
        9 => Ok(Rule::Civil(Kind::Dvr)),
        10 => Ok(Rule::Civil(Kind::Ns40)),
        11 => Ok(Rule::Civil(Kind::Ns40Le)),
        12 => Ok(Rule::Civil(Kind::LogTime)),
        13 => Ok(Rule::Civil(Kind::SemiOctet)),
        14 => Ok(Rule::Civil(Kind::Gsm)),
        15 => Ok(Rule::NokiaLe),
        16 => Ok(Rule::SqlServer),
        _ => Err(Refusal::Layout),
    }
}

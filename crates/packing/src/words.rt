// The word of some seconds, by the layout.
//
// Ported from timeglyph's src/registry.rs (Apache-2.0; see NOTICE), and changed.
ghost use Rattle.std.specs.Prelude.{◌≡◌};
ghost use Rattle.refusal.specs.Answers.{answer_of};
ghost use Rattle.day_time.specs.Answers.{fields_for};
ghost use Rattle.day_time.specs.Promises.{Ranged};
ghost use Rattle.layouts.specs.Layouts.{layout_for};
ghost use Rattle.packing.specs.Writing.{write_fields};
ghost use Rattle.packing.specs.Parts.{write_by};

use crate::write::write;
use byte_orders::{reverse, swap_year};
use civil::fields_of;
use day_time::Civil;
use layouts::{
    BCD, BIT_DATE, BIT_DEC, Bits, DTTM, DVR, FAT_DOS, GSM, Kind, LOG_TIME, MOTO, NS40, NS40_LE,
    Pairs, SEMI_OCTET, SYMANTEC, SemiOctets, SwappedPairs,
};
use refusal::Refusal;

// The bits of a civil time by the layout of a kind.
//
// Kept: an arm for each kind, as in `read_kind` of `unpacking`, and for its reason.
#[tactic(auto, using(crate::proofs::Packing::as_they_are), unfolding(byte_orders::specs::Orders::ordered))]
fn write_kind(kind: Kind, c: Civil) -> Result<u64, Refusal>
    requires { Ranged c }
    ensures { answer_of result ≡ write_by (layout_for kind) c }
{
    match kind {
        Kind::FatDos => write::<Bits>(FAT_DOS, c),
        Kind::ExFat => write::<Bits>(FAT_DOS, c),
        Kind::Dttm => write::<Bits>(DTTM, c),
        Kind::BitDate => write::<Bits>(BIT_DATE, c).map(reverse),
        Kind::BitDec => write::<Bits>(BIT_DEC, c),
        Kind::Bcd => write::<Pairs>(BCD, c),
        Kind::Moto => write::<Bits>(MOTO, c),
        Kind::Symantec => write::<Bits>(SYMANTEC, c),
        Kind::Dvr => write::<Bits>(DVR, c),
        Kind::Ns40 => write::<Bits>(NS40, c),
        Kind::Ns40Le => write::<Bits>(NS40_LE, c).map(swap_year),
        Kind::LogTime => write::<Bits>(LOG_TIME, c),
        Kind::SemiOctet => write::<SwappedPairs>(SEMI_OCTET, c),
        Kind::Gsm => write::<SemiOctets>(GSM, c),
    }
}

// The word of some seconds by the layout of a kind. Gsm is written with zone 0.
pub fn word_of(kind: Kind, seconds: i64) -> Result<i64, Refusal>
    ensures { answer_of result ≡ write_fields (layout_for kind) (fields_for seconds) }
{
    let c = fields_of(seconds)?;
    let bits = write_kind(kind, c)?;
    Ok(bits as i64)
}

// The fields of a word, by the kind of its layout.
//
// Ported from timeglyph's src/registry.rs (Apache-2.0; see NOTICE), and changed.
ghost use Rattle.std.specs.Prelude.{◌≡◌};
ghost use Rattle.refusal.specs.Answers.{answer_of};
ghost use Rattle.layouts.specs.Layouts.{layout_for};
ghost use Rattle.unpacking.specs.Reading.{read_by};

use crate::read::read;
use byte_orders::{reverse, swap_year};
use day_time::Civil;
use layouts::{
    BCD, BIT_DATE, BIT_DEC, Bits, DTTM, DVR, FAT_DOS, GSM, Kind, LOG_TIME, MOTO, NS40, NS40_LE,
    Pairs, SEMI_OCTET, SYMANTEC, SemiOctets, SwappedPairs,
};
use refusal::Refusal;

// The fields that a word's 64 bits hold by the layout of a kind.
//
// Kept: an arm for each kind, as in `layout_of`: with a constant description in each, the machine's code has its places as
// constants. A row took 34 ns without it, and 7 ns with it (docs/DECISIONS.md).
#[tactic(auto, unfolding(byte_orders::specs::Orders::ordered))]
pub fn read_kind(kind: Kind, bits: u64) -> Result<Civil, Refusal>
    ensures { answer_of result ≡ read_by (layout_for kind) bits }
{
    match kind {
        Kind::FatDos => read::<Bits>(FAT_DOS, bits),
        Kind::ExFat => read::<Bits>(FAT_DOS, bits),
        Kind::Dttm => read::<Bits>(DTTM, bits),
        Kind::BitDate => read::<Bits>(BIT_DATE, reverse(bits)),
        Kind::BitDec => read::<Bits>(BIT_DEC, bits),
        Kind::Bcd => read::<Pairs>(BCD, bits),
        Kind::Moto => read::<Bits>(MOTO, bits),
        Kind::Symantec => read::<Bits>(SYMANTEC, bits),
        Kind::Dvr => read::<Bits>(DVR, bits),
        Kind::Ns40 => read::<Bits>(NS40, bits),
        Kind::Ns40Le => read::<Bits>(NS40_LE, swap_year(bits)),
        Kind::LogTime => read::<Bits>(LOG_TIME, bits),
        Kind::SemiOctet => read::<SwappedPairs>(SEMI_OCTET, bits),
        Kind::Gsm => read::<SemiOctets>(GSM, bits),
    }
}

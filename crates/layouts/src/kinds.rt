// The fourteen kinds, and the description of each.
//
// Ported from timeglyph's src/registry.rs (Apache-2.0; see NOTICE), and changed.
ghost use Rattle.std.specs.Prelude.{◌≡◌};
ghost use Rattle.layouts.specs.Layouts.{layout_for};

use crate::layouts::{
    BCD, BIT_DATE, BIT_DEC, DTTM, DVR, FAT_DOS, GSM, LOG_TIME, Layout, MOTO, NS40, NS40_LE,
    SEMI_OCTET, SYMANTEC,
};

// The layouts 1 to 14, in the order of their numbers.
#[derive(Clone, Copy, Debug, PartialEq, Eq)]
pub enum Kind {
    FatDos,
    ExFat,
    Dttm,
    BitDate,
    BitDec,
    Bcd,
    Moto,
    Symantec,
    Dvr,
    Ns40,
    Ns40Le,
    LogTime,
    SemiOctet,
    Gsm,
}

// The description of a kind.
//
// Kept: an arm for each kind: `read_kind` of `unpacking` says why.
pub fn layout_of(kind: Kind) -> Layout
    ensures { result ≡ layout_for kind }
{
    match kind {
        Kind::FatDos => FAT_DOS,
        Kind::ExFat => FAT_DOS,
        Kind::Dttm => DTTM,
        Kind::BitDate => BIT_DATE,
        Kind::BitDec => BIT_DEC,
        Kind::Bcd => BCD,
        Kind::Moto => MOTO,
        Kind::Symantec => SYMANTEC,
        Kind::Dvr => DVR,
        Kind::Ns40 => NS40,
        Kind::Ns40Le => NS40_LE,
        Kind::LogTime => LOG_TIME,
        Kind::SemiOctet => SEMI_OCTET,
        Kind::Gsm => GSM,
    }
}

// The layouts 1 to 14: civil fields at fixed places of a word. Each is an instance of one description, `Layout`; `unpacking`
// reads a word by it, and `packing` writes one. The layouts 15 and 16 have no fields, and are in `counts`.
#![tactic(auto)]

mod digits;
mod kinds;
mod layouts;
mod pairs;

pub use digits::{Bits, DigitKind, Pairs, SemiOctets, SwappedPairs};
pub use kinds::{Kind, layout_of};
pub use layouts::{
    BCD, BIT_DATE, BIT_DEC, DTTM, DVR, Digits, FAT_DOS, Field, GSM, LOG_TIME, Layout, MOTO, NS40,
    NS40_LE, SEMI_OCTET, SYMANTEC, pair_layout,
};
pub use pairs::hundreds;

// The sixteen packed words: what instant a word says, and what word an instant has, by the layout of a number.
//
// Layouts 1 to 14 are civil fields at fixed places, which `unpacking` reads and `packing` writes, and 14 has a zone besides;
// 15 and 16 are counts from an epoch, which `counts` has. Every call is total: it answers the instant or the word, or a
// refusal and nothing else.
#![tactic(auto)]

mod decoding;
mod encoding;
mod rules;
mod zone;

pub use decoding::{decode, decode_bits};
pub use encoding::{encode, encode_by};
pub use rules::{Rule, pick};

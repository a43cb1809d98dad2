// The two column calls for other languages, exported under C's rules, and nothing else. With those of `sleetrick` they are
// libsleetrick.a.
//
// They stand in a crate of their own because a crate is compiled as one: here all that a row goes through has one caller, and
// the compiler puts it into the loop over the rows.
#![tactic(auto)]

ghost use Rattle.std.specs.Prelude.{◌≡◌};
ghost use Rattle.columns.specs.Columns.{decode_column, encode_column, answer};

use columns::{decode_column, encode_column};

// Decodes a column of words to a column of instants.
#[unsafe(no_mangle)]
pub extern "C" fn sleetrick_decode_column(layout: u32, words: &[u8], instants: &mut [u8]) -> u64
    ensures value { result ≡ answer (decode_column layout words.now instants.old) }
    ensures instants_after { instants.new ≡ (decode_column layout words.now instants.old).bytes }
{
    decode_column(layout, words, instants)
}

// Encodes a column of instants to a column of words.
#[unsafe(no_mangle)]
pub extern "C" fn sleetrick_encode_column(layout: u32, instants: &[u8], words: &mut [u8]) -> u64
    ensures value { result ≡ answer (encode_column layout instants.now words.old) }
    ensures words_after { words.new ≡ (encode_column layout instants.now words.old).bytes }
{
    encode_column(layout, instants, words)
}

// Layout 14: every zone byte with every byte of the seconds.
use crate::tally::{Outcome, Tally, Total, print_tally};
use crate::words::comes_back;
use registry::decode;
use signed::from_bits;
use std::io;

const LAYOUT: u32 = 14;

// The word of 2024-02-29 12:30:00 in zone 0, with the bytes 42 20 92 21 03 00 00.
const FIRST: u64 = 18613160454062080;

// A word says a whole second, and comes back.
pub fn try_word(word: i64) -> Outcome {
    let Ok(t) = decode(LAYOUT, word) else {
        return Outcome::Refused;
    };
    if t.nanos != 0 {
        return Outcome::Wrong;
    }
    comes_back(LAYOUT, word, t)
}

// All words of the last two bytes.
fn try_words() -> Tally {
    let mut tally = Tally::default();
    for k in 0..65536 {
        tally.count(try_word(from_bits(FIRST + k)));
    }
    tally
}

// Prints the line.
pub fn try_zones(rt: &impl Print, before: Total) -> io::Result<Total> {
    let tally = try_words();
    print_tally(rt, LAYOUT, "words of every zone", tally, before)
}

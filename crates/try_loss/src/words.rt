// What is tried of one word.
use crate::tally::Outcome;
use instant::Instant;
use registry::{decode, encode};
use signed::to_bits;

// Whether every four bits are a decimal digit.
fn is_digits(bits: u64) -> bool {
    (0..16).all(|k| (bits >> (4 * k)) % 16 <= 9)
}

// Kept: layouts by number, here and in the other modules: `Rule` is no plainer, since the tables and the printed lines have
// numbers.
//
// Whether a word has nothing that an encoder never writes: in 3 the weekday, in 12 the low 16 bits, in 14 the zone and
// digits above 9.
pub fn is_plain(layout: u32, word: i64) -> bool {
    let bits = to_bits(word);
    match layout {
        3 => bits / 536870912 % 8 == 0,
        12 => bits % 65536 == 0,
        14 => bits % 256 == 0 && is_digits(bits),
        _ => true,
    }
}

// Whether a word says an instant.
fn says(layout: u32, word: i64, t: Instant) -> bool {
    decode(layout, word) == Ok(t)
}

// Whether an instant has this word.
pub fn has_word(layout: u32, t: Instant, word: i64) -> bool {
    encode(layout, t) == Ok(word)
}

// The instant t that a word says has a word, which says t again. It is the same word where that is plain. (In layout 14 a
// zone can bring t before the first second that is written, or past the last: such words are not tried.)
pub fn comes_back(layout: u32, word: i64, t: Instant) -> Outcome {
    let Ok(again) = encode(layout, t) else {
        return Outcome::Wrong;
    };
    if again == word {
        return Outcome::Right;
    }
    if is_plain(layout, word) {
        return Outcome::Wrong;
    }
    says(layout, again, t).into()
}

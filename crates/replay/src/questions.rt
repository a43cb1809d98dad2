// What a line asks: the word before its first space names the question, and each topic, a module `asks_..`, answers its own. An
// answer is put into `out`, and how many bytes that are is said; there is none where the line asks nothing.
use crate::answers::say_bad_line;
use crate::{asks_byte_stamps, asks_calendar, asks_number_stamps, asks_words};
use byte_stamps::{cp56time2a, oracle_date, udf};
use texts::{after_space, before_space};

// The bytes of the longest line that asks something.
const LONGEST: usize = 32768;

// The answer to a question that a word names, and what stands behind it. The stamps' calls go in closures: handed over by
// name, their contracts are not found.
fn answer_to(word: &[u8], text: &[u8], out: &mut [u8]) -> Option<usize> {
    match word {
        b"seconds" => asks_calendar::seconds(civil::seconds_of, text, out),
        b"walk-seconds" => asks_calendar::seconds(year_walk::seconds_of, text, out),
        b"fields" => asks_calendar::fields(civil::fields_of, text, out),
        b"walk-fields" => asks_calendar::fields(year_walk::fields_of, text, out),
        b"decode" => asks_words::decoded(text, out),
        b"encode" => asks_words::encoded(text, out),
        b"filetime" => asks_number_stamps::filetime(text, out),
        b"vmsd" => asks_number_stamps::vmsd_pair(text, out),
        b"unix" => asks_number_stamps::unix(text, out),
        b"oracle" => asks_byte_stamps::answer(|stamp| oracle_date(stamp), text, out),
        b"cp56" => asks_byte_stamps::answer(|stamp| cp56time2a(stamp), text, out),
        b"udf" => asks_byte_stamps::answer(|stamp| udf(stamp), text, out),
        _ => None,
    }
}

// Puts the answer to a line, which is without its LF, at the start of out, and says how many bytes that are.
pub fn answer(line: &[u8], out: &mut [u8]) -> usize {
    if line.len() <= LONGEST {
        if let Some(n) = answer_to(before_space(line), after_space(line), out) {
            return n;
        }
    }
    say_bad_line(out)
}

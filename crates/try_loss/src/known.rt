// Tries that are known to be wrong, some for each judge. Nothing else that is tried is wrong, so a judge that called what is
// wrong right would change no other line.
use crate::steps::Row;
use crate::tally::{Outcome, Tally, Total, print_known};
use crate::words::{comes_back, has_word, is_plain};
use instant::Instant;
use std::io;

// 2024-02-29 00:00:00, and its words: in layout 9, and in 3 with a weekday.
const MIDNIGHT: i64 = 1709164800;

const WORD: i64 = 1622802432;

const WITH_WEEKDAY: i64 = 667084800;

// In layout 9 the next second's word, and the word of the midnight before.
const NEXT_WORD: i64 = 1622802433;

const DAY_BEFORE: i64 = 1622671360;

// In layout 16 that midnight's next two ticks, and the words one and two seconds later.
const TICK: i64 = 194772471906305;

const TWO_TICKS: i64 = 194772471906306;

const SECOND: i64 = 194772471906604;

const TWO_SECONDS: i64 = 194772471906904;

// A word one off; one that is not plain, of an instant that lies half a minute, or a nanosecond, past what its word says; an
// instant that has no word.
fn try_words(tally: &mut Tally) {
    let midnight = Instant::at_second(MIDNIGHT);
    let no_word = Instant::at_second(0);
    tally.count(comes_back(9, NEXT_WORD, midnight));
    tally.count(comes_back(3, WITH_WEEKDAY, Instant::at_second(1709164830)));
    tally.count(comes_back(3, WITH_WEEKDAY, Instant::new(MIDNIGHT, 1)));
    tally.count(comes_back(9, WORD, no_word));
    tally.count(has_word(9, midnight, NEXT_WORD).into());
    tally.count(has_word(9, no_word, WORD).into());
}

// Words that are not plain: a weekday, low bits, a zone, a digit above 9.
fn try_plain_words(tally: &mut Tally) {
    tally.count(is_plain(3, WITH_WEEKDAY).into());
    tally.count(is_plain(12, 124595732481).into());
    tally.count(is_plain(14, 18613160454062081).into());
    tally.count(is_plain(14, 2560).into());
}

// Of a day: a word of the day before, one with nanoseconds, and instants whose word says another second than the latest, says
// nanoseconds, or is refused. Of the zones: a word whose zone brings it before the first second that has a word.
fn try_day(tally: &mut Tally) {
    let mut marks = [false; 2];
    tally.count(crate::day::try_word(9, DAY_BEFORE, &mut marks));
    tally.count(crate::day::try_word(16, TICK, &mut marks));
    tally.count(crate::day::try_instant(9, 0, 0, Some(1)));
    tally.count(crate::day::try_instant(16, 0, 5000000, Some(0)));
    tally.count(crate::day::try_instant(9, 0, 1000000000, Some(0)));
    tally.count(crate::zones::try_word(17660905521216));
}

// Steps: a step too long ago, one with nanoseconds, and an instant that is not at a step.
fn try_steps(tally: &mut Tally) {
    let midnight = Instant::at_second(MIDNIGHT);
    let half_a_minute = Instant::at_second(1709164830);
    let row = Row {
        layout: 1,
        step: 1,
        first: 0,
        last: 0,
    };
    tally.count(crate::steps::is_latest(30, half_a_minute, midnight).into());
    tally.count(crate::steps::is_latest(1, midnight, Instant::new(MIDNIGHT, 1)).into());
    tally.count(crate::steps::try_instant(row, Instant::at_second(1709164801)));
}

// Ticks: one too late, one too early, and words one and two seconds later.
fn try_ticks(tally: &mut Tally) {
    let midnight = Instant::at_second(MIDNIGHT);
    tally.count(crate::steps::is_nearest(midnight, TICK).into());
    tally.count(Outcome::from(crate::steps::is_nearest(
        Instant::new(MIDNIGHT, 10000000),
        TWO_TICKS,
    )));
    tally.count(crate::steps::is_nearest(midnight, SECOND).into());
    tally.count(crate::steps::is_nearest(midnight, TWO_SECONDS).into());
}

// Prints their line, the first.
pub fn try_known(rt: &impl Print) -> io::Result<Total> {
    let mut tally = Tally::default();
    try_words(&mut tally);
    try_plain_words(&mut tally);
    try_day(&mut tally);
    try_steps(&mut tally);
    try_ticks(&mut tally);
    print_known(rt, tally)
}

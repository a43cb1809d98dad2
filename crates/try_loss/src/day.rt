// All words and all seconds of one day, in layouts where a day has few words.
use crate::tally::{Outcome, Tally, Total, print_tally};
use crate::words::comes_back;
use instant::Instant;
use registry::{decode, encode};
use signed::{from_bits, to_bits};
use std::io;

// The words of 2024-02-29 in a layout: groups of `size` words in a row, from the word `first` on, each group `apart` from
// the one before it.
#[derive(Clone, Copy, Debug, PartialEq, Eq)]
struct Day {
    layout: u32,
    first: u64,
    size: u64,
    groups: u64,
    apart: u64,
}

const DAYS: [Day; 6] = [
    Day {
        layout: 1,
        first: 1482489856,
        size: 65536,
        groups: 1,
        apart: 0,
    },
    // A group for each value of the weekday's bits.
    Day {
        layout: 3,
        first: 130213888,
        size: 2048,
        groups: 8,
        apart: 536870912,
    },
    Day {
        layout: 5,
        first: 2122508288,
        size: 2048,
        groups: 1,
        apart: 0,
    },
    Day {
        layout: 6,
        first: 240229000000,
        size: 1000000,
        groups: 1,
        apart: 0,
    },
    Day {
        layout: 9,
        first: 1622802432,
        size: 131072,
        groups: 1,
        apart: 0,
    },
    Day {
        layout: 13,
        first: 422092000000,
        size: 1000000,
        groups: 1,
        apart: 0,
    },
];

// The first second of 2024-02-29.
const MIDNIGHT: u64 = 1709164800;

// A mark for each second of the day.
fn no_marks() -> [bool; 86400] {
    [false; 86400]
}

// A word of the day. What it says is a whole second of the day, which is marked, and comes back.
pub fn try_word(layout: u32, word: i64, marks: &mut [bool]) -> Outcome {
    let Ok(t) = decode(layout, word) else {
        return Outcome::Refused;
    };
    if t.nanos != 0 {
        return Outcome::Wrong;
    }
    let second = to_bits(t.seconds).wrapping_sub(MIDNIGHT) as usize;
    let Some(mark) = marks.get_mut(second) else {
        return Outcome::Wrong;
    };
    *mark = true;
    comes_back(layout, word, t)
}

// The words of a group, from its first on.
fn try_group(day: &Day, first: u64, marks: &mut [bool], tally: &mut Tally) {
    for k in 0..day.size {
        let word = from_bits(first.wrapping_add(k));
        tally.count(try_word(day.layout, word, marks));
    }
}

// All words of the day.
fn try_words(day: &Day, marks: &mut [bool]) -> Tally {
    let mut tally = Tally::default();
    for k in 0..day.groups {
        let first = day.first.wrapping_add(day.apart.wrapping_mul(k));
        try_group(day, first, marks, &mut tally);
    }
    tally
}

// An instant of the day, whose word says the latest second that is marked, not after it.
pub fn try_instant(layout: u32, second: usize, nanos: u32, latest: Option<usize>) -> Outcome {
    let seconds = from_bits(MIDNIGHT.wrapping_add(second as u64));
    let Ok(word) = encode(layout, Instant::new(seconds, nanos)) else {
        return Outcome::Wrong;
    };
    let Ok(u) = decode(layout, word) else {
        return Outcome::Wrong;
    };
    if u.nanos != 0 {
        return Outcome::Wrong;
    }
    match latest {
        Some(latest) => (to_bits(u.seconds) == MIDNIGHT.wrapping_add(latest as u64)).into(),
        None => Outcome::Wrong,
    }
}

// The first and the last instant of each second of the day. Before the first mark, there is no latest.
fn try_instants(layout: u32, marks: &[bool]) -> Tally {
    let mut tally = Tally::default();
    let mut latest = None;
    for (second, mark) in marks.iter().enumerate() {
        if *mark {
            latest = Some(second);
        }
        tally.count(try_instant(layout, second, 0, latest));
        tally.count(try_instant(layout, second, Instant::NANOS, latest));
    }
    tally
}

// Prints both lines of a day.
fn try_day(rt: &impl Print, day: &Day, before: Total) -> io::Result<Total> {
    let mut marks = no_marks();
    let words = try_words(day, &mut marks);
    let instants = try_instants(day.layout, &marks);
    let total = print_tally(rt, day.layout, "words of a day", words, before)?;
    print_tally(rt, day.layout, "instants of a day", instants, total)
}

// All days.
pub fn try_days(rt: &impl Print, before: Total) -> io::Result<Total> {
    let mut total = before;
    for day in &DAYS {
        total = try_day(rt, day, total)?;
    }
    Ok(total)
}

// Instants around the first and the last second of a layout, and around ends of days between.
use crate::tally::{Outcome, Tally, Total, print_tally};
use crate::words::{has_word, is_plain};
use instant::Instant;
use registry::{decode, encode};
use signed::{from_bits, rem_floor, to_bits};
use std::io;

// The seconds between two words of a layout, and the first and the last second that it writes.
#[derive(Clone, Copy, Debug, PartialEq, Eq)]
pub struct Row {
    pub layout: u32,
    pub step: u64,
    pub first: i64,
    pub last: i64,
}

const ROWS: [Row; 16] = [
    Row {
        layout: 1,
        step: 2,
        first: 315532800,
        last: 4354819199,
    },
    Row {
        layout: 2,
        step: 2,
        first: 315532800,
        last: 4354819199,
    },
    Row {
        layout: 3,
        step: 60,
        first: -2208988800,
        last: 13948156799,
    },
    Row {
        layout: 4,
        step: 60,
        first: -62167219200,
        last: 67090118399,
    },
    Row {
        layout: 5,
        step: 60,
        first: -62167219200,
        last: 253402207200,
    },
    Row {
        layout: 6,
        step: 1,
        first: 946684800,
        last: 4102444799,
    },
    Row {
        layout: 7,
        step: 1,
        first: 0,
        last: 8078572799,
    },
    Row {
        layout: 8,
        step: 1,
        first: 0,
        last: 8078572799,
    },
    Row {
        layout: 9,
        step: 1,
        first: 946684800,
        last: 2966371199,
    },
    Row {
        layout: 10,
        step: 1,
        first: -62167219200,
        last: 253402207200,
    },
    Row {
        layout: 11,
        step: 1,
        first: -62167219200,
        last: 253402207200,
    },
    Row {
        layout: 12,
        step: 1,
        first: -2208988800,
        last: 5869583999,
    },
    Row {
        layout: 13,
        step: 1,
        first: 946684800,
        last: 4102444799,
    },
    Row {
        layout: 14,
        step: 1,
        first: 946684800,
        last: 4102444799,
    },
    Row {
        layout: 15,
        step: 1,
        first: -1770359295,
        last: 2524608000,
    },
    Row {
        layout: 16,
        step: 1,
        first: -185544796176000,
        last: 185540378198399,
    },
];

// How many seconds are tried around each center.
const AROUND: u64 = 400;

// In layout 16, 5 and 995 ms are halfway between two ticks, and from 998,333,334 on the nearest tick is the next second's.
const NANOS: [u32; 10] = [
    0, 1, 4999999, 5000000, 499999999, 500000000, 995000000, 998333333, 998333334, 999999999,
];

// The seconds to try around: the layout's first and last, the midnights that start 2000-03-01, 2024-03-01, 2025-01-01 and
// 2100-03-01, and 2^31.
fn centers(row: &Row) -> [i64; 7] {
    [
        row.first, row.last, 951868800, 1709251200, 1735689600, 4107542400, 2147483648,
    ]
}

// Whether u is the last whole step of the layout, not after t.
pub fn is_latest(step: u64, t: Instant, u: Instant) -> bool {
    if u.nanos != 0 {
        return false;
    }
    to_bits(t.seconds).wrapping_sub(to_bits(u.seconds)) == rem_floor(t.seconds, step)
}

// The seconds from the first day that a word of layout 16 has to 1970-01-01.
const SQL_TO_1970: u64 = 185544796176000;

// Whether a word of layout 16 is the tick nearest to t, or the later of two. In thirds of a nanosecond a second is
// 3,000,000,000 and a tick 10,000,000, and t with half a tick added lies in the word's tick. As t may be a second before
// the word's, both are taken a second later.
pub fn is_nearest(t: Instant, word: i64) -> bool {
    let bits = to_bits(word);
    let day = (bits / 4294967296 + 2147483648) % 4294967296;
    let ticks = bits % 4294967296;
    let second = day * 86400 + ticks / 300;
    let seconds = to_bits(t.seconds).wrapping_add(SQL_TO_1970);
    let passed = seconds.wrapping_add(1).wrapping_sub(second);
    if 2 < passed {
        return false;
    }
    let nanos = t.nanos as u64;
    let time = passed * 3000000000 + nanos * 3 + 5000000;
    let tick = 3000000000 + ticks % 300 * 10000000;
    time.wrapping_sub(tick) < 10000000
}

// Whether a word of t says an instant u as it should.
fn is_close(row: Row, t: Instant, word: i64, u: Instant) -> bool {
    if row.layout == 16 {
        return is_nearest(t, word);
    }
    is_latest(row.step, t, u)
}

// The word of t is plain, says an instant that is close, and is the word of that one too.
pub fn try_instant(row: Row, t: Instant) -> Outcome {
    let Ok(word) = encode(row.layout, t) else {
        return Outcome::Refused;
    };
    let Ok(u) = decode(row.layout, word) else {
        return Outcome::Wrong;
    };
    if is_plain(row.layout, word) {
        if is_close(row, t, word, u) {
            return has_word(row.layout, u, word).into();
        }
    }
    Outcome::Wrong
}

// The instants of a second.
fn try_second(row: Row, seconds: i64, tally: &mut Tally) {
    for nanos in &NANOS {
        tally.count(try_instant(row, Instant::new(seconds, *nanos)));
    }
}

// All instants of a layout.
fn try_instants(row: Row) -> Tally {
    let mut tally = Tally::default();
    for center in &centers(&row) {
        let from = to_bits(*center).wrapping_sub(AROUND / 2);
        for k in 0..AROUND {
            try_second(row, from_bits(from.wrapping_add(k)), &mut tally);
        }
    }
    tally
}

// Prints the line of a layout.
fn try_layout(rt: &impl Print, row: Row, before: Total) -> io::Result<Total> {
    let tally = try_instants(row);
    print_tally(rt, row.layout, "instants around steps", tally, before)
}

// All layouts.
pub fn try_steps(rt: &impl Print, before: Total) -> io::Result<Total> {
    let mut total = before;
    for row in &ROWS {
        total = try_layout(rt, *row, total)?;
    }
    Ok(total)
}

// The text of an answer, without an LF. `say` and its likes put all of it at the start of out and answer how many bytes that
// are; a function `put..` puts a part of it from index `at` on and answers the index behind it.
//
// Kept: texts of its own beside those of `lines`: one trait for both is no plainer, since all of this program would have to show
// the room that those ask. Text by `decimal`, whose recorded answers these are.
use day_time::Civil;
use decimal::put_number;
use instant::Instant;
use refusal::Refusal;
use signed::from_bits;
use texts::put;

// A space, and then a civil field, which is far below 2^63.
fn put_field(out: &mut [u8], at: usize, n: u64) -> usize {
    let to = put(out, at, b" ");
    put_number(out, to, from_bits(n))
}

pub fn say_bad_line(out: &mut [u8]) -> usize {
    put(out, 0, b"bad line")
}

fn say_refused(out: &mut [u8], why: Refusal) -> usize {
    let to = put(out, 0, b"refused ");
    put_number(out, to, why.number() as i64)
}

// What a call gives where it does not refuse.
pub trait Given {
    fn put(self, out: &mut [u8], at: usize) -> usize;
}

// Seconds, or a word.
impl Given for i64 {
    fn put(self, out: &mut [u8], at: usize) -> usize {
        put_number(out, at, self)
    }
}

impl Given for Instant {
    fn put(self, out: &mut [u8], at: usize) -> usize {
        let space = put_number(out, at, self.seconds);
        let nanos = put(out, space, b" ");
        put_number(out, nanos, self.nanos as i64)
    }
}

impl Given for Civil {
    fn put(self, out: &mut [u8], at: usize) -> usize {
        let month = put_number(out, at, self.year);
        let day = put_field(out, month, self.month);
        let hour = put_field(out, day, self.day);
        let minute = put_field(out, hour, self.hour);
        let second = put_field(out, minute, self.minute);
        put_field(out, second, self.second)
    }
}

pub fn say<T: Given>(out: &mut [u8], answer: Result<T, Refusal>) -> usize {
    match answer {
        Ok(given) => given.put(out, 0),
        Err(why) => say_refused(out, why),
    }
}

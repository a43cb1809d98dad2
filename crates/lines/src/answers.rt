// The text of an answer, put into a buffer. A function that puts several texts requires the room that every answer has.
//
// Kept: a buffer, an index and their room beside each other: a struct is no plainer, since each call of `texts::put` takes it
// apart.
ghost use Rattle.std.specs.Prelude.{◌≡◌, ℕ, ◌+◌, ◌≤◌, List, length};
ghost use Rattle.refusal.specs.Answers.{refusal_number, answer_of};
ghost use Rattle.decimal.specs.Write.{show_int};
ghost use Rattle.texts.specs.Buffer.{written};
ghost use Rattle.lines.specs.Questions.{narrowed};
ghost use Rattle.lines.specs.Answers.{bad_line, refused_text, instant_text, given_text, answer_text, asked_text, in_room, line_text};

use crate::questions::{Question, question_in};
use decimal::put_number;
use instant::Instant;
use refusal::Refusal;
use registry::{decode, encode};
use texts::put;

// The room that every answer has, its LF too.
pub const ROOM: usize = 48;

// A number that is no layout's, and one that is no instant's nanoseconds.
const NO_LAYOUT: u32 = 0;

const NO_NANOS: u32 = 4294967295;

// z where a u32 holds it, and `other` where not.
//
// Kept: numbers that stand for others: what may not change: `narrowed` (specs/Questions) hands them on, and the codec refuses
// them.
#[tactic(auto, unfolding(crate::specs::Questions::narrowed))]
fn narrow(z: i64, other: u32) -> u32
    ensures { result ≡ narrowed z other }
{
    u32::try_from(z).unwrap_or(other)
}

// The answer to a line that asks nothing.
#[tactic(auto, unfolding(crate::specs::Answers::bad_line))]
fn put_bad_line(out: &mut [u8], at: usize) -> usize
    ensures value { result ≡ (written out.old at bad_line).next }
    ensures out_after { out.new ≡ (written out.old at bad_line).bytes }
{
    put(out, at, b"bad line")
}

// A refusal, by its number.
fn put_refused(out: &mut [u8], at: usize, why: Refusal) -> usize
    requires { at + 48 ≤ length out.old }
    ensures value { result ≡ (written out.old at (refused_text (refusal_number why))).next }
    ensures out_after { out.new ≡ (written out.old at (refused_text (refusal_number why))).bytes }
{
    let to = put(out, at, b"refused ");
    put_number(out, to, why.number() as i64)
}

// What a call gives where it does not refuse. (Kept: `replay` has a trait and texts of its own, and says why.)
trait Given {
    ghost text: { Self → List ℕ };

    // Its text.
    fn put(self, out: &mut [u8], at: usize) -> usize
        requires { at + 48 ≤ length out.old }
        ensures value { result ≡ (written out.old at (text self)).next }
        ensures out_after { out.new ≡ (written out.old at (text self)).bytes };
}

// A word.
impl Given for i64 {
    ghost text = { show_int };

    fn put(self, out: &mut [u8], at: usize) -> usize {
        put_number(out, at, self)
    }
}

// Seconds and nanoseconds.
impl Given for Instant {
    ghost text = { instant_text };

    fn put(self, out: &mut [u8], at: usize) -> usize {
        let space = put_number(out, at, self.seconds);
        let nanos = put(out, space, b" ");
        put_number(out, nanos, self.nanos as i64)
    }
}

// What a call answered.
fn put_result<T: Given>(out: &mut [u8], at: usize, answer: Result<T, Refusal>) -> usize
    requires { at + 48 ≤ length out.old }
    ensures value { result ≡ (written out.old at (given_text T.text (answer_of answer))).next }
    ensures out_after { out.new ≡ (written out.old at (given_text T.text (answer_of answer))).bytes }
{
    match answer {
        Ok(given) => given.put(out, at),
        Err(why) => put_refused(out, at, why),
    }
}

// The answer to a question, without an LF.
#[tactic(auto, unfolding(crate::specs::Answers::answer_text))]
fn put_answer(out: &mut [u8], at: usize, question: Question) -> usize
    requires { at + 48 ≤ length out.old }
    ensures value { result ≡ (written out.old at (answer_text question)).next }
    ensures out_after { out.new ≡ (written out.old at (answer_text question)).bytes }
{
    match question {
        Question::Decode(layout, word) => {
            let layout = narrow(layout, NO_LAYOUT);
            put_result(out, at, decode(layout, word))
        }
        Question::Encode(layout, seconds, nanos) => {
            let layout = narrow(layout, NO_LAYOUT);
            let instant = Instant::new(seconds, narrow(nanos, NO_NANOS));
            put_result(out, at, encode(layout, instant))
        }
    }
}

// The answer to a line that asks something, or to one that does not.
#[tactic(auto, unfolding(crate::specs::Answers::asked_text))]
fn put_asked(out: &mut [u8], at: usize, asked: Option<Question>) -> usize
    requires { at + 48 ≤ length out.old }
    ensures value { result ≡ (written out.old at (asked_text asked)).next }
    ensures out_after { out.new ≡ (written out.old at (asked_text asked)).bytes }
{
    match asked {
        Some(question) => put_answer(out, at, question),
        None => put_bad_line(out, at),
    }
}

// Puts the answer to a line, which is without its LF, into out from index `at` on, and answers the index behind it. Where
// there is less room than every answer has, out stays as it is and the answer is `at`. (Kept: what may not change: `in_room`.)
pub fn answer_line(line: &[u8], out: &mut [u8], at: usize) -> usize
    ensures value { result ≡ (in_room out.old at (line_text line.now)).next }
    ensures out_after { out.new ≡ (in_room out.old at (line_text line.now)).bytes }
{
    if out.len() < at {
        return at;
    }
    if out.len() - at < ROOM {
        return at;
    }
    let end = put_asked(out, at, question_in(line));
    put(out, end, b"\n")
}

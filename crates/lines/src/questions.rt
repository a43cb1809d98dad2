// What a line asks: a letter and numbers, with one space between each two.
ghost use Rattle.std.specs.Prelude.{◌≡◌};
ghost use Rattle.lines.specs.Questions.{decode_in, encode_in, question_of};

use decimal::number_in;
use texts::{after_space, before_space};

// The bytes of the longest line that asks something.
const LONGEST: usize = 64;

// A layout and a word; or a layout, seconds and nanoseconds.
#[derive(Clone, Copy, Debug, PartialEq, Eq)]
pub enum Question {
    Decode(i64, i64),
    Encode(i64, i64, i64),
}

// What stands behind the `d `, where both are numbers. The last number is all that is left, so that another one spoils it.
#[tactic(auto, unfolding(crate::specs::Questions::asks_decode, crate::specs::Questions::decode_in))]
fn decode_in(text: &[u8]) -> Option<Question>
    ensures { result ≡ decode_in text.now }
{
    let layout = number_in(before_space(text))?;
    let word = number_in(after_space(text))?;
    Some(Question::Decode(layout, word))
}

// What stands behind the `e `, where all three are numbers.
#[tactic(auto, unfolding(crate::specs::Questions::asks_encode, crate::specs::Questions::encode_in))]
fn encode_in(text: &[u8]) -> Option<Question>
    ensures { result ≡ encode_in text.now }
{
    let instant = after_space(text);
    let layout = number_in(before_space(text))?;
    let seconds = number_in(before_space(instant))?;
    let nanos = number_in(after_space(instant))?;
    Some(Question::Encode(layout, seconds, nanos))
}

// What a line asks, which is without its LF: nothing where it asks neither.
#[tactic(auto, unfolding(crate::specs::Questions::behind_letter, crate::specs::Questions::question_of))]
pub fn question_in(line: &[u8]) -> Option<Question>
    ensures { result ≡ question_of line.now }
{
    if LONGEST < line.len() {
        return None;
    }
    let &[letter] = before_space(line) else {
        return None;
    };
    match letter {
        b'd' => decode_in(after_space(line)),
        b'e' => encode_in(after_space(line)),
        _ => None,
    }
}

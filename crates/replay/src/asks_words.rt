// The sixteen packed words, by the number of their layout.
use crate::answers::say;
use decimal::number_in;
use instant::Instant;
use registry::{decode, encode};
use texts::{after_space, before_space};

// A number that is no layout's, and one that is no instant's nanoseconds: the codec refuses them. They stand for numbers that
// 32 bits do not hold.
//
// Kept: what may not change: the program answers `refused 1` and `refused 9` to them, by the codec, as in `lines`.
const NO_LAYOUT: u32 = 0;

const NO_NANOS: u32 = 4294967295;

// What stands before the first space, as a layout's number.
fn layout_in(text: &[u8]) -> Option<u32> {
    let layout = number_in(before_space(text))?;
    Some(u32::try_from(layout).unwrap_or(NO_LAYOUT))
}

// LAYOUT WORD.
pub fn decoded(text: &[u8], out: &mut [u8]) -> Option<usize> {
    let layout = layout_in(text)?;
    let word = number_in(after_space(text))?;
    Some(say(out, decode(layout, word)))
}

// LAYOUT SECONDS NANOS.
pub fn encoded(text: &[u8], out: &mut [u8]) -> Option<usize> {
    let layout = layout_in(text)?;
    let rest = after_space(text);
    let seconds = number_in(before_space(rest))?;
    let nanos = number_in(after_space(rest))?;
    let instant = Instant::new(seconds, u32::try_from(nanos).unwrap_or(NO_NANOS));
    Some(say(out, encode(layout, instant)))
}

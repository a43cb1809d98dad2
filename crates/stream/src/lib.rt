// The line program on a stream of lines that comes in blocks. Reading the blocks and writing the answers out is left to the
// program `stamps`.
//
// What is held from block to block is the line that is not finished: its first 65 bytes, one more than a line may have, so
// that one that is too long is known for what it is however long it gets.
#![tactic(auto)]

ghost use Rattle.std.specs.Prelude.{◌≡◌, ◌+◌, ◌≤◌, length};
ghost use Rattle.texts.specs.Buffer.{written};
ghost use Rattle.line_input.specs.Held.{holds};
ghost use Rattle.lines.specs.Answers.{in_room};
ghost use Rattle.stream.specs.Stream.{after_byte, last_text, Feeds};

use line_input::keep;
use lines::{ROOM, answer_line};
use texts::first;

// After a block was fed, or a part of it: how many of its bytes were taken, how many bytes are held, and how many were
// written.
#[derive(Clone, Copy, Debug, PartialEq, Eq)]
pub struct Fed {
    pub taken: usize,
    pub held: usize,
    pub wrote: usize,
}

// After one byte: how many bytes are held, and the index behind the text so far.
#[derive(Drop)]
struct Step {
    held: usize,
    next: usize,
}

// One byte of the stream: an LF has its line answered, and any other byte is held.
#[tactic(auto, using(lines::proofs::Texts::nothing_put, lines::proofs::Texts::in_room_lem), unfolding(crate::specs::Stream::after_byte))]
fn take_byte(held: &mut [u8; 65], n: usize, b: u8, out: &mut [u8], at: usize) -> Step
    requires { at + 48 ≤ length out.old }
    ensures held_after { holds held.new result.held ≡ (after_byte (holds held.old n) b).held }
    ensures next { result.next ≡ (written out.old at (after_byte (holds held.old n) b).text).next }
    ensures out_after { out.new ≡ (written out.old at (after_byte (holds held.old n) b).text).bytes }
{
    if b == b'\n' {
        let next = answer_line(first(held, n), out, at);
        return Step { held: 0, next };
    }
    Step {
        held: keep(held, n, b),
        next: at,
    }
}

// Takes bytes of a block, and puts the answers to the lines that they end at the start of out. It stops early where out
// has no room for any answer: what is left of the block is fed when out has been written. `n` bytes are held before.
//
// Kept: bytes and n beside each other, here and in `last_line`: what may not change: n may be any number, also above 65.
pub fn feed(held: &mut [u8; 65], n: usize, block: &[u8], out: &mut [u8]) -> Fed
    ensures { Feeds (holds held.old n) block.now out.old result held.new out.new }
{
    let mut len = n;
    let mut at = 0;
    for (i, &b) in block.iter().enumerate() {
        if out.len() - at < ROOM {
            return Fed {
                taken: i,
                held: len,
                wrote: at,
            };
        }
        let step = take_byte(held, len, b, out, at);
        len = step.held;
        at = step.next;
    }
    Fed {
        taken: block.len(),
        held: len,
        wrote: at,
    }
}

// Puts the answer to a last line that lacks its LF at the start of out, and answers how many bytes that are: 0 where
// nothing is held, which is no line, and where out has no room for any answer. (Kept: what may not change: `in_room`.)
#[tactic(auto, using(lines::proofs::Texts::nothing_in_room), unfolding(crate::specs::Stream::last_text))]
pub fn last_line(held: &[u8; 65], n: usize, out: &mut [u8]) -> usize
    ensures value { result ≡ (in_room out.old 0 (last_text (holds held.now n))).next }
    ensures out_after { out.new ≡ (in_room out.old 0 (last_text (holds held.now n))).bytes }
{
    if n == 0 {
        return 0;
    }
    answer_line(first(held, n), out, 0)
}

// Answers questions on the library: a line of standard input to a line of standard output.
//
//   seconds YEAR MONTH DAY HOUR MINUTE SECOND   the seconds of a civil time; walk-seconds asks the second engine
//   fields SECONDS                              the civil time of some seconds, in six numbers; walk-fields likewise
//   decode LAYOUT WORD                          the instant that a word says, as SECONDS NANOS
//   encode LAYOUT SECONDS NANOS                 the word of an instant
//   filetime LOW HIGH                           the instant of a FILETIME's halves
//   vmsd HIGH LOW                               of microseconds in two signed halves
//   unix SECONDS NANOS                          of seconds and nanoseconds, which may carry
//   oracle HEX                                  of an Oracle DATE
//   cp56 HEX                                    of a CP56Time2a
//   udf HEX                                     of a UDF timestamp
//
// A refusal is `refused N`. There is one space between each two parts. HEX is bytes as pairs of lower-case hex digits, and `-`
// is no bytes. A line that asks nothing is `bad line`, and so are one with a number that its call's type can't hold and one of
// more than 32,768 bytes; but a LAYOUT or NANOS of `decode` and `encode` that 32 bits do not hold is refused by the codec, as
// in the line program. The last line may lack its LF.
//
// What can't be read or written is said on standard error, and ends the program with status 1, as in the line program.
//
// Nothing is proved here of what is written: the program is safe, ends, and is run on lists of recorded answers.
#![tactic(auto)]

mod answers;
mod asks_byte_stamps;
mod asks_calendar;
mod asks_number_stamps;
mod asks_words;
mod hex;
mod numbers;
mod questions;

use crate::questions::answer;
use failures::{Failure, read_failed, status, write_out};
use line_input::{take_line, turns_left};
use std::io::{Read, Write};
use std::process::ExitCode;
use texts::{first, put};

// The bytes of a block, and of the room for a line: twice as many as a line may have, so that one that is cut to the room is
// too long in any case.
const BLOCK: usize = 65536;

// The bytes of a line that are held, and how many they are; and room for an answer.
#[derive(Drop)]
struct Buffers {
    held: [u8; BLOCK],
    n: usize,
    out: [u8; BLOCK],
}

impl Buffers {
    fn new() -> Self {
        Buffers {
            held: [0; BLOCK],
            n: 0,
            out: [0; BLOCK],
        }
    }

    // Answers the line that is held, which is without its LF, in one write.
    fn answer_line(&mut self, output: &mut impl Write) -> Result<(), Failure> {
        let n = answer(first(&self.held, self.n), &mut self.out);
        let end = put(&mut self.out, n, b"\n");
        self.n = 0;
        write_out(output, first(&self.out, end))
    }

    // Answers the lines that a block ends, and holds what is left of it.
    //
    // Kept: by index, which is no counter: what may not change: `take_line` takes one and answers the next.
    fn answer_block(&mut self, block: &[u8], output: &mut impl Write) -> Result<(), Failure> {
        let mut from = 0;
        while from < block.len() {
            let taken = take_line(&mut self.held, self.n, block, from);
            self.n = taken.held;
            from = taken.next;
            if taken.whole {
                self.answer_line(output)?;
            }
        }
        Ok(())
    }

    // Reads a block and answers the lines that it ends: how many bytes it has. A read that is made again counts as a block of one.
    fn answer_next(
        &mut self,
        block: &mut [u8],
        input: &mut impl Read,
        output: &mut impl Write,
    ) -> Result<usize, Failure> {
        match input.read(block) {
            Ok(k) => {
                self.answer_block(first(block, k), output)?;
                Ok(k)
            }
            Err(why) => {
                read_failed(why)?;
                Ok(1)
            }
        }
    }

    // Kept: the loop over the reads, as in `stamps`: one for both is no plainer: its closure would borrow all that stands here.
    //
    // All of the input, and a last line that lacks its LF. A proved loop has to end, and nothing says that the input does: the turns
    // are from a number that no run uses up, and none is left where the input has ended.
    fn answer_all(
        &mut self,
        input: &mut impl Read,
        output: &mut impl Write,
    ) -> Result<(), Failure> {
        let mut block = [0; BLOCK];
        for turn in 0..u64::MAX {
            let k = self.answer_next(&mut block, input, output)?;
            if turns_left(u64::MAX - turn, k) == 0 {
                break;
            }
        }
        if self.n == 0 {
            return Ok(());
        }
        self.answer_line(output)
    }
}

fn main(rt: HostRuntime) -> ExitCode {
    let ended = Buffers::new().answer_all(&mut rt.stdin(), &mut rt.stdout());
    status(&rt, "replay", ended)
}

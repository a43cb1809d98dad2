// The line program: a line of standard input to a line of standard output, as `stream` has it.
//
//   d LAYOUT WORD            the instant that a word says, as SECONDS NANOS, or `refused N`
//   e LAYOUT SECONDS NANOS   the word of an instant, or `refused N`
//
// A line that asks neither is `bad line`, and so is one of more than 64 bytes. The last line may lack its LF.
//
// It holds one line, one block of input and one of output, however long the input is. What a block asks is written before
// the next one is read, in as few writes as it fits.
//
// What can't be read or written is said on standard error, and ends the program with status 1: answers that are cut off must
// not be taken for all of them. Of a reader that went away nothing is said.
#![tactic(auto)]

use failures::{Failure, read_failed, status, write_out};
use line_input::turns_left;
use std::io::{Read, Write};
use std::process::ExitCode;
use stream::{feed, last_line};
use texts::first;

// The bytes of a block.
const BLOCK: usize = 65536;

// The bytes of a line that are held, and how many they are; and a block of output.
#[derive(Drop)]
struct Buffers {
    held: [u8; 65],
    n: usize,
    out: [u8; BLOCK],
}

impl Buffers {
    fn new() -> Self {
        Buffers {
            held: [0; 65],
            n: 0,
            out: [0; BLOCK],
        }
    }

    // Answers the lines that a block ends, and holds what is left of it.
    fn answer_block(&mut self, block: &[u8], output: &mut impl Write) -> Result<(), Failure> {
        let mut rest = block;
        while !rest.is_empty() {
            let fed = feed(&mut self.held, self.n, rest, &mut self.out);
            write_out(output, first(&self.out, fed.wrote))?;
            self.n = fed.held;
            rest = &rest[fed.taken..];
        }
        Ok(())
    }

    // Answers a last line that lacks its LF.
    fn answer_rest(&mut self, output: &mut impl Write) -> Result<(), Failure> {
        let wrote = last_line(&self.held, self.n, &mut self.out);
        write_out(output, first(&self.out, wrote))
    }

    // Reads a block and answers the lines that it ends: how many bytes it has. A read that is made again counts as a block of one.
    fn answer_next(
        &mut self,
        block: &mut [u8],
        input: &mut impl Read,
        output: &mut impl Write,
    ) -> Result<usize, Failure> {
        match input.read(block) {
            Ok(k) => {
                self.answer_block(first(block, k), output)?;
                Ok(k)
            }
            Err(why) => {
                read_failed(why)?;
                Ok(1)
            }
        }
    }

    // Kept: the loop over the reads, as in `replay`: one for both is no plainer: its closure would borrow all that stands here.
    //
    // All of the input. A proved loop has to end, and nothing says that the input does: the turns are from a number that no run
    // uses up, and none is left where the input has ended.
    fn answer_all(
        &mut self,
        input: &mut impl Read,
        output: &mut impl Write,
    ) -> Result<(), Failure> {
        let mut block = [0; BLOCK];
        for turn in 0..u64::MAX {
            let k = self.answer_next(&mut block, input, output)?;
            if turns_left(u64::MAX - turn, k) == 0 {
                break;
            }
        }
        self.answer_rest(output)
    }
}

fn main(rt: HostRuntime) -> ExitCode {
    let ended = Buffers::new().answer_all(&mut rt.stdin(), &mut rt.stdout());
    status(&rt, "stamps", ended)
}

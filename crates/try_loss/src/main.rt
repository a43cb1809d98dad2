// Tries what a word loses, as crates/loss/specs/Loss.antt states it, by running the registry's decoders and encoders.
//
//   known to be wrong      a few tries that have to be called so
//   words of a day         all words of 2024-02-29: what a word says has a word, which says it again, and a plain word
//                          comes back
//   instants of a day      all seconds of that day: a second's word says the latest second, not after it, that any of
//                          those words says
//   instants around steps  some hundred seconds around the first and the last of a layout, and around midnights between:
//                          an instant's word is plain, says the last step not after the instant (in layout 16 the
//                          nearest, and of two the later), and is the word of what it says
//   words of every zone    in layout 14, every zone byte with every byte of the seconds: as the words of a day
//
// A line counts what was right, what the registry refused and what was wrong; the last line is what was wrong in all, the known
// apart. Where a line can't be written, that is said on standard error, and the program ends with status 1. Of a reader that
// went away nothing is said.
//
// Nothing is proved here of what is written: the program is safe, ends, and is run.
#![tactic(auto)]

mod day;
mod known;
mod steps;
mod tally;
mod words;
mod zones;

use crate::day::try_days;
use crate::known::try_known;
use crate::steps::try_steps;
use crate::tally::print_total;
use crate::zones::try_zones;
use failures::{Failure, status};
use std::io;
use std::process::ExitCode;

// Every line, until one can't be written.
fn try_all(rt: &impl Print) -> io::Result<()> {
    let known = try_known(rt)?;
    let days = try_days(rt, known)?;
    let steps = try_steps(rt, days)?;
    let zones = try_zones(rt, steps)?;
    print_total(rt, zones)
}

fn main(rt: HostRuntime) -> ExitCode {
    let ended = try_all(&rt).map_err(Failure::Output);
    status(&rt, "try_loss", ended)
}

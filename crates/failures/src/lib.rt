// What ends a program before its input does: a read or a write that failed. Reading and writing are the program's; what it
// makes of a failure, and the status that it ends with, is here, once for all programs.
//
// A failure is said on standard error, and the status tells it too: answers that are cut off must not be taken for all of them.
// Of a reader that went away nothing is said.
#![tactic(auto)]

ghost use Rattle.std.specs.Prelude.{◌≡◌, ◌≢◌, ◌↔◌, IsOk, OnOk, OnErr, IfErr};
ghost use Rattle.failures.specs.declared.Failure.TheVariants.{Input, Output};
ghost use Rattle.std.specs.IoError.{error_kind};
ghost use Rattle.std.specs.Io.KnownBytes.{Appends};

use std::io::{ErrorKind, Write};
use std::process::ExitCode;
use std::{fmt, io};

// Which of the two failed, and why.
#[derive(Drop)]
pub enum Failure {
    Input(io::Error),
    Output(io::Error),
}

// The text of a failure, of which nothing is proved but that it is safe.
impl fmt::Display for Failure {
    fn fmt<W: fmt::Write>(&self, f: &mut fmt::Formatter<W>) -> fmt::Result {
        match self {
            Failure::Input(why) => write!(f, "standard input: {why}"),
            Failure::Output(why) => write!(f, "standard output: {why}"),
        }
    }
}

// Lets a read that a signal interrupted be made again. Any other that has failed ends the program.
pub fn read_failed(why: io::Error) -> Result<(), Failure>
    ensures again { OnOk result (error_kind why ≡ ErrorKind.Interrupted) }
    ensures fails { OnErr result (error_kind why ≢ ErrorKind.Interrupted) }
    ensures input { IfErr result (λ failure. failure ≡ Input why) }
{
    if why.kind() == ErrorKind::Interrupted {
        return Ok(());
    }
    Err(Failure::Input(why))
}

// Writes answers, all of them where it is Ok.
pub fn write_out<W: Write>(output: &mut W, text: &[u8]) -> Result<(), Failure>
    ensures all { OnOk result (Appends (W.contents output.old) (W.contents output.new) text.now) }
    ensures output { IfErr result (λ failure. (why : _) × failure ≡ Output why) }
{
    output.write_all(text).map_err(Failure::Output)
}

// Says what failed, unless it was a reader that went away. Where that can't be written either, the status alone tells it.
fn say(rt: &impl Eprint, program: &str, failure: &Failure) {
    match failure {
        Failure::Output(why) if why.kind() == ErrorKind::BrokenPipe => {}
        _ => {
            let _ = eprintln!(rt; "{program}: {failure}");
        }
    }
}

// The status of a program that has ended: success where nothing failed, and only there.
pub fn status(rt: &impl Eprint, program: &str, ended: Result<(), Failure>) -> ExitCode
    ensures { (result ≡ ExitCode.SUCCESS) ↔ IsOk ended }
{
    match ended {
        Ok(()) => ExitCode::SUCCESS,
        Err(failure) => {
            say(rt, program, &failure);
            ExitCode::FAILURE
        }
    }
}

// Counting what was tried, and printing the counts.
use std::{fmt, io};

// What came of one try.
#[derive(Clone, Copy, Debug, PartialEq, Eq)]
pub enum Outcome {
    Right,
    Refused,
    Wrong,
}

// Right, where it is as it should be. (Kept: a bool, which is what a test gives: nothing is plainer.)
impl From<bool> for Outcome {
    fn from(ok: bool) -> Self {
        if ok { Outcome::Right } else { Outcome::Wrong }
    }
}

// How many tries came to each. A count stays at the largest number.
#[derive(Clone, Copy, Debug, PartialEq, Eq, Default)]
pub struct Tally {
    pub right: u64,
    pub refused: u64,
    pub wrong: u64,
}

impl Tally {
    // One try more.
    pub fn count(&mut self, outcome: Outcome) {
        let n = match outcome {
            Outcome::Right => &mut self.right,
            Outcome::Refused => &mut self.refused,
            Outcome::Wrong => &mut self.wrong,
        };
        *n = n.saturating_add(1);
    }
}

// The counts of a part.
impl fmt::Display for Tally {
    fn fmt<W: fmt::Write>(&self, f: &mut fmt::Formatter<W>) -> fmt::Result {
        write!(
            f,
            "{} right, {} refused, {} wrong",
            self.right, self.refused, self.wrong
        )
    }
}

// Of all lines so far: how many tries were wrong.
#[derive(Clone, Copy, Debug, PartialEq, Eq)]
pub struct Total {
    pub wrong: u64,
}

// Prints the line of what is known to be wrong, which does not count.
pub fn print_known(rt: &impl Print, tally: Tally) -> io::Result<Total> {
    println!(rt; "known to be wrong: {tally}")?;
    Ok(Total { wrong: 0 })
}

// Prints the line of a part of a layout, and counts what was wrong.
pub fn print_tally(
    rt: &impl Print,
    layout: u32,
    part: &str,
    tally: Tally,
    before: Total,
) -> io::Result<Total> {
    println!(rt; "{layout} {part}: {tally}")?;
    Ok(Total {
        wrong: before.wrong.saturating_add(tally.wrong),
    })
}

// The last line.
pub fn print_total(rt: &impl Print, total: Total) -> io::Result<()> {
    println!(rt; "{} wrong in all", total.wrong)
}

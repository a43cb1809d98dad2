// The next line of an input that comes in blocks. What is held from block to block is the line that is not finished: a
// block's bytes go behind it up to an LF, and then the line is whole. Reading the blocks and answering the lines are the
// program's.
//
// A line for which there is no room fills it, and what is left of the line is dropped. So whoever makes room for one byte
// more than a line may have knows one that is too long, however long it is.
//
// No public function has a `requires`.
#![tactic(auto)]

mod held;
mod turns;

pub use held::{Taken, keep, take_line};
pub use turns::turns_left;

// The line program as a function on bytes: one line to its answer. A stream of lines is left to `stream`.
#![tactic(auto)]

mod answers;
mod questions;

pub use answers::{ROOM, answer_line};

// Rows of lent bytes: an instant in 12 bytes, a word in 8, and how many rows two columns have. This is the one place that has
// those bytes; the order of the bytes of a number is that of `octets`.
//
// Every call is total: a slice may have any length.
#![tactic(auto)]

mod cells;
mod counted;

pub use cells::{Cell, instant_in};
pub use counted::rows_in;

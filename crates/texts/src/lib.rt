// Parts of a text, which is plain bytes: its first bytes, the two sides of its first space, and a text put into a buffer.
// No public function has a `requires`.
#![tactic(auto)]

mod buffer;
mod parts;
mod spaces;

pub use buffer::put;
pub use parts::first;
pub use spaces::{after_space, before_space};

// Numbers as decimal text: read from bytes, and written to bytes. Text is plain bytes, so there is no locale, no plus
// sign and no separator; a number is a signed 64-bit one. No public function has a `requires`.
#![tactic(auto)]

mod read;
mod write;

pub use read::number_in;
pub use write::{Text, put_number, text_of};

// Civil fields packed into a word: the word of some seconds by each of the layouts 1 to 14.
//
// Writing is once over the layouts' description, for each kind of digits. What the fields of a layout can't hold is dropped.
#![tactic(auto)]

mod words;
mod write;

pub use words::word_of;

// The civil fields that a word holds, by each of the layouts 1 to 14. Reading is written once over the description, for each kind
// of digits.
#![tactic(auto)]

mod kinds;
mod read;
mod stored;

pub use kinds::read_kind;

// The instant, which is seconds since 1970-01-01 UTC and nanoseconds.
#![tactic(auto)]

mod instants;

pub use instants::Instant;

// The two words that count from an epoch: layout 15, Nokia's seconds, and layout 16, SQL Server's days and ticks.
#![tactic(auto)]

mod nokia;
mod sql;

pub use nokia::{decode_nokia, encode_nokia};
pub use sql::{decode_sql, encode_sql};

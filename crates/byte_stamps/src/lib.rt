// The three composites that come in a few bytes: Oracle DATE, CP56Time2a and the UDF timestamp. Those that come in two numbers
// are in `number_stamps`.
//
// Every call is total: it answers the instant, or a refusal and nothing else. A stamp may have any length, and a wrong one is
// refused before its bytes are looked at.
#![tactic(auto)]

mod cp56_stamp;
mod oracle_stamp;
mod udf_stamp;

pub use cp56_stamp::cp56time2a;
pub use oracle_stamp::oracle_date;
pub use udf_stamp::udf;

// Civil times in UTC: the six fields, the civil window, and the time of day. What both engines of the calendar share stands
// here, and the definitions that both are proved against: `civil` is the fast one, `year_walk` the plain one.
//
// Seconds count from 1970-01-01 UTC and are negative before. A civil time has seconds where its date is one of the years
// -9999 to 9999, its time of day is one, and its seconds lie in the civil window.
#![tactic(auto)]

mod times;

pub use times::{Civil, on_date, seconds_on};

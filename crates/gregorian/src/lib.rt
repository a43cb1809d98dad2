// The proleptic Gregorian calendar in whole days, with a year 0: the day number of a date, counted from 1 January 1970,
// and the date of a day number, for the years -9999 to 9999.
//
// Both take the same time for every year. Inside, years and days are counted from 1 January -10000, so that they are never
// negative: 10000 is a multiple of 400, and the leap rule reads the same.
#![tactic(auto)]

mod dates;
mod months;
mod passed;
mod years;

pub use dates::{Date, EPOCH_DAY, date_of, day_of};
pub use passed::Passed;

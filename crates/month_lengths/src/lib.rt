// The lengths of years and months: the leap rule, and the table of the months.
//
// Years are counted from -10000 here, and months from 0: 10000 is a multiple of 400, so the leap rule reads the same.
#![tactic(auto)]

ghost use Rattle.std.specs.Prelude.{◌≡◌, slice_index};
ghost use Rattle.month_lengths.specs.Lengths.{leap, months, year_at};

// The lengths of the months: row 0 for common years, row 1 for leap years.
const MONTHS: [[u8; 12]; 2] = [
    [31, 28, 31, 30, 31, 30, 31, 31, 30, 31, 30, 31],
    [31, 29, 31, 30, 31, 30, 31, 31, 30, 31, 30, 31],
];

// Whether a year is leap. Of the years that 100 divides, 16 divides just those that 400 divides.
#[tactic(auto, using(crate::proofs::Leap::leap_century, crate::proofs::Leap::leap_other))]
pub fn is_leap(years: u64) -> bool
    ensures { result ≡ leap (year_at years) }
{
    if years % 100 == 0 {
        years % 16 == 0
    } else {
        years % 4 == 0
    }
}

// The length of a month. One that no year has has no days.
pub fn length_of_month(leap: bool, month: u64) -> u64
    ensures { result ≡ slice_index (months leap) month }
{
    if 11 < month {
        return 0;
    }
    MONTHS[leap as usize][month as usize] as u64
}

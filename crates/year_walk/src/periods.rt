// The years from -10000 on, and the months of a year.
ghost use Rattle.std.proofs.Common.{arith};
ghost use Rattle.month_lengths.specs.Lengths.{days_of_months, year_days, year_at};
ghost use Rattle.gregorian.specs.Gregorian.{days_of_years};
ghost use Rattle.gregorian.proofs.MonthSums.{no_months, fewer_months, months_most};
ghost use Rattle.gregorian.proofs.YearSums.{no_years, fewer_years, years_high};

use crate::passed::Periods;
use month_lengths::{is_leap, length_of_month};

// The years from -10000 on, as many as the calendar has.
#[derive(Clone, Copy)]
pub struct Years;

impl Periods for Years {
    ghost days = { λ y. days_of_years };

    ghost count = { 20000 };

    #[tactic(auto, using(gregorian::proofs::YearSums::years_step, gregorian::proofs::YearSums::year_row))]
    fn length(self, k: u64) -> u64 {
        if is_leap(k) { 366 } else { 365 }
    }

    ghost none = { λ y. no_years };

    ghost one = { λ y k day. fewer_years k day };

    ghost few = { omega arith };

    ghost short = { λ y k h. omega (arith, years_high k) };
}

// The months of a year, from January on.
#[derive(Clone, Copy)]
pub struct Months {
    pub leap: bool,
}

impl Periods for Months {
    ghost days = { λ m. days_of_months m.leap };

    ghost count = { 12 };

    #[tactic(auto, using(gregorian::proofs::MonthSums::months_step))]
    fn length(self, k: u64) -> u64 {
        length_of_month(self.leap, k)
    }

    ghost none = { λ m. no_months m.leap };

    ghost one = { λ m k day. fewer_months m.leap k day };

    ghost few = { omega arith };

    ghost short = { λ m k h. omega (arith, months_most m.leap k h) };
}

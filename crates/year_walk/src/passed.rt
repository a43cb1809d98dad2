// Periods that follow one another, which are years, or the months of a year: the days before one, and the period of a day, from
// period to period.
ghost use Rattle.std.specs.Prelude.{◌≡◌, ℕ, ◌+◌, ◌≤◌, ◌<◌, ◌^◌};

use gregorian::Passed;

// Periods, each of some days, counted from 0.
pub trait Periods: Copy {
    // The days of the first k of them, and how many are gone through.
    ghost days: { Self → ℕ → ℕ };

    ghost count: { ℕ };

    // The days of one.
    fn length(self, k: u64) -> u64
        requires { k < count }
        ensures { days self (k + 1) ≡ days self k + result };

    ghost none: { (p : Self) → days p 0 ≡ 0 };

    // A period that starts at or before a day, which lies before the end, is one of them.
    ghost one: { (p : Self) (k day : ℕ) → days p k ≤ day → day < days p count → k < count };

    ghost few: { count < 2 ^ 63 };

    ghost short: { (p : Self) (k : ℕ) → k ≤ count → days p k < 2 ^ 63 };
}

// The days before a period, summed.
pub fn days_before<P: Periods>(periods: P, k: u64) -> u64
    requires { k ≤ P.count }
    ensures { result ≡ P.days periods k }
{
    let mut days = 0;
    for i in 0..k {
        days += periods.length(i);
    }
    days
}

// What has passed at a day: periods pass as long as they lie whole in what is left.
//
// Kept: a `for` over the periods is no plainer: it needs an answer for when it ends, and no day gets there.
pub fn passed_at<P: Periods>(periods: P, day: u64) -> Passed
    requires { day < P.days periods P.count }
    ensures within { result.whole < P.count }
    ensures is { P.days periods result.whole + result.left ≡ day }
    ensures short { day < P.days periods (result.whole + 1) }
{
    let mut whole = 0;
    let mut left = day;
    loop {
        let length = periods.length(whole);
        if left < length {
            return Passed { whole, left };
        }
        left -= length;
        whole += 1;
    }
}

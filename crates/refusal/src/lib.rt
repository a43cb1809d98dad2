// Why a call gives no value. This is the one place that has the refusals and their numbers, which are those of the list that
// users are given (docs/LAYOUTS.md).
#![tactic(auto)]

ghost use Rattle.std.specs.Prelude.{◌≡◌};
ghost use Rattle.refusal.specs.Answers.{refusal_number};

#[derive(Clone, Copy, Debug, PartialEq, Eq)]
pub enum Refusal {
    // The layout number is not 1 to 16.
    Layout = 1,
    // A word outside its layout's range, or a FILETIME with its top bit set.
    Range = 2,
    // Civil fields that are not good.
    Fields = 3,
    // The units of a Gsm zone are above 9.
    Zone = 4,
    // SqlServer ticks of a day or more.
    Ticks = 5,
    // Seconds outside the civil window.
    Window = 6,
    // A year that the layout has no room for.
    Year = 7,
    // A count that the word has no room for: seconds in layout 15, days in layout 16.
    Count = 8,
    // An instant's nanoseconds are above 999,999,999.
    Nanos = 9,
    // A byte stamp of a wrong length.
    Length = 10,
    // A column that is not whole rows, or an output that has not exactly as many.
    Rows = 11,
    // Seconds that do not fit 64 bits.
    Carry = 12,
    // A column of more than 1,048,576 rows.
    Column = 13,
}

impl Refusal {
    // Its number on the list.
    pub fn number(self) -> u32
        ensures { result ≡ refusal_number self }
    {
        self as u32
    }
}

// How many rows a column of words and a column of instants have beside each other.
ghost use Rattle.std.specs.Prelude.{◌≡◌};
ghost use Rattle.refusal.specs.Answers.{answer_of};
ghost use Rattle.rows.specs.Counted.{rows_in};

use refusal::Refusal;

// The most rows that two columns may have.
const MOST: usize = 1048576;

// The rows of a column of words in n bytes beside one of instants in m bytes.
#[tactic(auto, unfolding(crate::specs::Counted::rows_in))]
pub fn rows_in(n: usize, m: usize) -> Result<usize, Refusal>
    ensures { answer_of result ≡ rows_in n m }
{
    if n % 8 != 0 {
        return Err(Refusal::Rows);
    }
    if m % 12 != 0 {
        return Err(Refusal::Rows);
    }
    let rows = n / 8;
    if m / 12 != rows {
        return Err(Refusal::Rows);
    }
    if MOST < rows {
        return Err(Refusal::Column);
    }
    Ok(rows)
}

// An answer handed to a caller in another language: its result over one row of lent bytes, or its refusal in the number.
ghost use Rattle.std.specs.Prelude.{◌≡◌};
ghost use Rattle.refusal.specs.Answers.{answer_of};
ghost use Rattle.sleetrick.specs.Calls.{handed, in_row};

use crate::numbers::number_of;
use refusal::Refusal;
use rows::Cell;

// Writes an instant or a word over a row of its size. (Kept: a number, since it is the C interface.)
pub fn hand<C: Cell + Drop>(found: Result<C, Refusal>, row: &mut [u8]) -> u64
    ensures value { result ≡ (handed C.bytes row.old (in_row C.SIZE row.old (answer_of found))).number }
    ensures row_after { row.new ≡ (handed C.bytes row.old (in_row C.SIZE row.old (answer_of found))).bytes }
{
    if row.len() != C::SIZE {
        return number_of(Refusal::Rows);
    }
    match found {
        Ok(value) => {
            value.put(row);
            0
        }
        Err(why) => number_of(why),
    }
}

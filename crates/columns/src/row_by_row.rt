// Coding the rows of a column.
ghost use Rattle.std.specs.Prelude.{◌≡◌, ◌*◌, ◌≤◌, length};
ghost use Rattle.columns.specs.Columns.{rows_of, answer};

use crate::coding::Coding;
use refusal::Refusal;
use registry::Rule;

// The rows from the first until one is refused.
//
// Kept: by the row's number: with `chunks_exact` and `chunks_exact_mut` it was tried, and the proof did not close.
pub fn code_rows<C: Coding>(rule: Rule, input: &[u8], output: &mut [u8], rows: usize) -> u64
    requires few { rows ≤ 1048576 }
    requires input_len { length input.now ≡ C.FROM * rows }
    requires output_len { length output.old ≡ C.TO * rows }
    ensures value { result ≡ answer (rows_of (C.coded rule) C.FROM C.TO rows input.now output.old) }
    ensures output_after { output.new ≡ (rows_of (C.coded rule) C.FROM C.TO rows input.now output.old).bytes }
{
    let a = C::FROM;
    let b = C::TO;
    for i in 0..rows {
        let from = a * i;
        let to = b * i;
        if let Err(why) = C::code(rule, &input[from..from + a], &mut output[to..to + b]) {
            return i as u64 * 16 + why.number() as u64;
        }
    }
    rows as u64 * 16
}

// Columns of words and instants: two calls on lent bytes, which `sleetrick_columns` exports.
//
// A column of words has 8 bytes a row, and a column of instants 12, as `rows` has them. Rows are done from the first until one is
// refused. A call answers one number: the rows that are done times 16, plus the refusal, 0 for none. Rows that are done hold
// their results; later rows of the output and the whole input keep their bytes.
//
// Kept: one number for both, since it is the C interface: `sleetrick_columns` exports the calls as they are. Inside, a pair is no
// plainer: it would be folded into the number at once.
#![tactic(auto)]

ghost use Rattle.std.specs.Prelude.{◌≡◌, ◌*◌, ◌≤◌, length, IfOk};
ghost use Rattle.refusal.specs.Answers.{answer_of};
ghost use Rattle.registry.specs.Words.{rule_for};
ghost use Rattle.columns.specs.Columns.{column_with, decode_column, encode_column, answer};

mod coding;
mod row_by_row;

use coding::{Coding, Decoding, Encoding};
use refusal::Refusal;
use registry::pick;
use row_by_row::code_rows;
use rows::rows_in;

// A whole call, once its rows are counted: the layout number is looked at before the first row.
fn code_column<C: Coding>(
    layout: u32,
    counted: Result<usize, Refusal>,
    input: &[u8],
    output: &mut [u8],
) -> u64
    requires { IfOk counted (λ rows. (rows ≤ 1048576) × (length input.now ≡ C.FROM * rows) × (length output.old ≡ C.TO * rows)) }
    ensures value { result ≡ answer (column_with C.coded C.FROM C.TO (answer_of counted) (rule_for layout) input.now output.old) }
    ensures output_after { output.new ≡ (column_with C.coded C.FROM C.TO (answer_of counted) (rule_for layout) input.now output.old).bytes }
{
    match (counted, pick(layout)) {
        (Ok(rows), Ok(rule)) => code_rows::<C>(rule, input, output, rows),
        (Err(why), _) => why.number() as u64,
        (Ok(_), Err(why)) => why.number() as u64,
    }
}

// Decodes a column of words to a column of instants.
#[tactic(auto, using(rows::proofs::Promises::rows_are_whole), unfolding(crate::specs::Columns::decode_column))]
pub fn decode_column(layout: u32, words: &[u8], instants: &mut [u8]) -> u64
    ensures value { result ≡ answer (decode_column layout words.now instants.old) }
    ensures instants_after { instants.new ≡ (decode_column layout words.now instants.old).bytes }
{
    code_column::<Decoding>(
        layout,
        rows_in(words.len(), instants.len()),
        words,
        instants,
    )
}

// Encodes a column of instants to a column of words.
#[tactic(auto, using(rows::proofs::Promises::rows_are_whole), unfolding(crate::specs::Columns::encode_column))]
pub fn encode_column(layout: u32, instants: &[u8], words: &mut [u8]) -> u64
    ensures value { result ≡ answer (encode_column layout instants.now words.old) }
    ensures words_after { words.new ≡ (encode_column layout instants.now words.old).bytes }
{
    code_column::<Encoding>(
        layout,
        rows_in(words.len(), instants.len()),
        instants,
        words,
    )
}

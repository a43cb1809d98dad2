// Coding a row: a word to its instant, and an instant to its word.
ghost use Rattle.std.specs.Prelude.{◌≡◌, ℕ, List, length};
ghost use Rattle.refusal.specs.Answers.{Answer};
ghost use Rattle.registry.specs.declared.rules.Rule.{Rule};
ghost use Rattle.columns.specs.Columns.{decode_row, encode_row, RowLeaves};

use octets::get64;
use refusal::Refusal;
use registry::{Rule, decode_bits, encode_by};
use rows::{Cell, instant_in};

// A way of coding rows.
pub trait Coding {
    // The bytes of an input's row, and of an output's.
    const FROM: usize;

    ghost FROM: { ℕ };

    const TO: usize;

    ghost TO: { ℕ };

    // What a row gives.
    ghost coded: { Rule → List ℕ → Answer (List ℕ) };

    // Writes what a row gives over one of the output, which stays as it is where it gives none.
    fn code(rule: Rule, from: &[u8], to: &mut [u8]) -> Result<(), Refusal>
        requires { (length from.now ≡ FROM) × (length to.old ≡ TO) }
        ensures { RowLeaves (coded rule from.now) to.old result to.new };
}

// Words to instants.
pub struct Decoding;

impl Coding for Decoding {
    const FROM: usize = 8;

    ghost FROM = { 8 };

    const TO: usize = 12;

    ghost TO = { 12 };

    ghost coded = { decode_row };

    #[tactic(auto, using(rows::proofs::Over::over_placed, rows::proofs::Promises::row_lengths), unfolding(crate::specs::Columns::decode_row))]
    fn code(rule: Rule, from: &[u8], to: &mut [u8]) -> Result<(), Refusal> {
        decode_bits(rule, get64(from))?.put(to);
        Ok(())
    }
}

// Instants to words.
pub struct Encoding;

impl Coding for Encoding {
    const FROM: usize = 12;

    ghost FROM = { 12 };

    const TO: usize = 8;

    ghost TO = { 8 };

    ghost coded = { encode_row };

    #[tactic(auto, using(rows::proofs::Over::over_placed, rows::proofs::Promises::row_lengths), unfolding(crate::specs::Columns::encode_row))]
    fn code(rule: Rule, from: &[u8], to: &mut [u8]) -> Result<(), Refusal> {
        encode_by(rule, instant_in(from))?.put(to);
        Ok(())
    }
}

// One row: an instant, or a word.
ghost use Rattle.std.specs.Prelude.{◌≡◌, ℕ, ◌+◌, List, length};
ghost use Rattle.std.specs.Int.{w64, cast_unsigned};
ghost use Rattle.octets.specs.Octets.{bytes_of};
ghost use Rattle.rows.specs.Cells.{instant_of, instant_bytes, word_bytes, over};
ghost use Rattle.std.proofs.Common.{ap, ◌∙◌, length-append};
ghost use Rattle.octets.proofs.Promises.{many};

use instant::Instant;
use octets::{get32, get64, put};
use signed::{from_bits, to_bits};

// What fills a row: an instant, or a word.
pub trait Cell {
    // How many bytes its row has.
    const SIZE: usize;

    ghost SIZE: { ℕ };

    // Those bytes.
    ghost bytes: { Self → List ℕ };

    // Writes it over a row of that size. A slice of another length stays as it is.
    fn put(self, row: &mut [u8])
        ensures { row.new ≡ over row.old (bytes self) };

    ghost fills: { (x : Self) → length (bytes x) ≡ SIZE };
}

impl Cell for Instant {
    const SIZE: usize = 12;

    ghost SIZE = { 12 };

    ghost bytes = { instant_bytes };

    fn put(self, row: &mut [u8]) {
        if row.len() != 12 {
            return;
        }
        put(&mut row[..8], to_bits(self.seconds));
        put(&mut row[8..], self.nanos as u64);
    }

    ghost fills = { λ t. length-append (bytes_of 8 (cast_unsigned w64 t.seconds)) (bytes_of 4 t.nanos) ∙ ap (λ n. n + length (bytes_of 4 t.nanos)) (many 8 _) ∙ ap (λ n. 8 + n) (many 4 _) };
}

// A word.
impl Cell for i64 {
    const SIZE: usize = 8;

    ghost SIZE = { 8 };

    ghost bytes = { word_bytes };

    #[tactic(auto, using(crate::proofs::Over::over_kept, crate::proofs::Promises::row_lengths))]
    fn put(self, row: &mut [u8]) {
        if row.len() != 8 {
            return;
        }
        put(row, to_bits(self));
    }

    ghost fills = { λ z. many 8 _ };
}

// The instant in a row: its first 8 bytes are the seconds, and the next 4 the nanoseconds. What a shorter row lacks is zero.
#[tactic(auto, unfolding(octets::specs::Octets::number_of))]
pub fn instant_in(row: &[u8]) -> Instant
    ensures { result ≡ instant_of row.now }
{
    let seconds = from_bits(get64(row));
    if row.len() < 8 {
        return Instant::new(seconds, 0);
    }
    Instant::new(seconds, get32(&row[8..]))
}

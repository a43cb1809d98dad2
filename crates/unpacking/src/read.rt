// Reading civil fields out of a word's bits, by a description: a field's value by its kind of digits, and the rest once for all
// kinds.
//
// Ported from timeglyph's src/registry.rs (Apache-2.0; see NOTICE), and changed.
#![tactic(auto, using(crate::proofs::Values::bits_small, crate::proofs::Values::scaled_small), unfolding(crate::specs::Reading::value_of, crate::specs::Reading::fields_in))]

ghost use Rattle.std.specs.Prelude.{◌≡◌, ◌<◌, ◌^◌};
ghost use Rattle.refusal.specs.Answers.{answer_of};
ghost use Rattle.unpacking.specs.Reading.{value_of, stored, fields_in, in_range};
ghost use Rattle.unpacking.specs.Parts.{Readable, Sound};

use crate::stored::{cut, pair};
use day_time::Civil;
use layouts::{Bits, DigitKind, Field, Layout, Pairs, SemiOctets, SwappedPairs};
use refusal::Refusal;

// A kind of digits that can be read.
pub trait ReadDigits: DigitKind {
    // The value of a field.
    fn value_at(p: u64, f: Field) -> u64
        requires { Readable Self.digits f }
        ensures { (result ≡ value_of Self.digits f (stored Self.digits f p)) × (result < 2 ^ 32) };
}

impl ReadDigits for Bits {
    fn value_at(p: u64, f: Field) -> u64 {
        f.offset + cut(p, f.place, f.width) * f.step
    }
}

impl ReadDigits for Pairs {
    fn value_at(p: u64, f: Field) -> u64 {
        f.offset + pair(p, f.place) * f.step
    }
}

impl ReadDigits for SwappedPairs {
    fn value_at(p: u64, f: Field) -> u64 {
        let n = pair(p, f.place);
        f.offset + (n % 10 * 10 + n / 10) * f.step
    }
}

// A semi-octet above 127 counts as -1: one less than the offset, or 255 where that is 0, which is no month, day, hour, minute or
// second.
//
// Kept: 255 for none: what may not change: `minus_one` (specs/Reading) says so.
impl ReadDigits for SemiOctets {
    fn value_at(p: u64, f: Field) -> u64 {
        let n = cut(p, f.place, f.width);
        let v = n % 16 * 10 + n / 16;
        if v <= 127 {
            f.offset + v * f.step
        } else if f.offset == 0 {
            255
        } else {
            f.offset - 1
        }
    }
}

// The fields in a word's bits, which are in order.
//
// Kept: a clause for the kind of digits beside the type: what may not change: `layout_of` answers a `Layout` of any kind.
fn fields_in<D: ReadDigits>(l: Layout, p: u64) -> Civil
    requires sound { Sound D.digits l }
    requires digits { l.digits ≡ D.digits }
    ensures { result ≡ fields_in l p }
{
    Civil {
        year: D::value_at(p, l.year) as i64,
        month: D::value_at(p, l.month),
        day: D::value_at(p, l.day),
        hour: D::value_at(p, l.hour),
        minute: D::value_at(p, l.minute),
        second: D::value_at(p, l.second),
    }
}

// The same where the word is in range.
pub fn read<D: ReadDigits>(l: Layout, p: u64) -> Result<Civil, Refusal>
    requires sound { Sound D.digits l }
    requires digits { l.digits ≡ D.digits }
    ensures { answer_of result ≡ in_range l p }
{
    if l.words <= p {
        return Err(Refusal::Range);
    }
    Ok(fields_in::<D>(l, p))
}

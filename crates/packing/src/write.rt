// Writing civil fields into a word's bits, by a description: a field's value by its kind of digits, and the rest once for all
// kinds.
//
// Ported from timeglyph's src/registry.rs (Apache-2.0; see NOTICE), and changed.
#![tactic(auto, using(crate::proofs::Packing::up, crate::proofs::Packing::hundred_small, layouts::proofs::SixPairs::counts), unfolding(crate::specs::Writing::numeral, crate::specs::Writing::packed))]

ghost use Rattle.std.specs.Prelude.{◌≡◌, ◌+◌, ◌*◌, ◌^◌, ◌≤◌, ◌<◌};
ghost use Rattle.refusal.specs.Answers.{answer_of};
ghost use Rattle.day_time.specs.Promises.{Ranged};
ghost use Rattle.packing.specs.Writing.{steps, placed, packed};
ghost use Rattle.packing.specs.Parts.{Ready, Packs, Writable, in_years, write_bits};

use day_time::Civil;
use layouts::{Bits, DigitKind, Field, Layout, Pairs, SemiOctets, SwappedPairs, hundreds};
use refusal::Refusal;
use signed::to_bits;

// A number of `width` bits moved up to `place`.
fn moved(number: u64, place: u32, width: u32) -> u64
    requires { (place + width ≤ 64) × (place < 64) × (number < 2 ^ width) }
    ensures { result ≡ number * 2 ^ place }
{
    number << place
}

// The steps of a value.
fn steps_of(f: Field, v: u64) -> u64
    requires { (f.offset ≤ v) × (0 < f.step) }
    ensures { result ≡ steps f v }
{
    (v - f.offset) / f.step
}

// A kind of digits that can be written.
pub trait WriteDigits: DigitKind {
    // A value at its place.
    fn placed_value(f: Field, v: u64) -> u64
        requires { Ready Self.digits f v }
        ensures { result ≡ placed Self.digits f v };
}

impl WriteDigits for Bits {
    fn placed_value(f: Field, v: u64) -> u64 {
        moved(steps_of(f, v), f.place, f.width)
    }
}

impl WriteDigits for Pairs {
    fn placed_value(f: Field, v: u64) -> u64 {
        steps_of(f, v) * hundreds(f.place)
    }
}

impl WriteDigits for SwappedPairs {
    fn placed_value(f: Field, v: u64) -> u64 {
        let n = steps_of(f, v);
        (n % 10 * 10 + n / 10) * hundreds(f.place)
    }
}

impl WriteDigits for SemiOctets {
    fn placed_value(f: Field, v: u64) -> u64 {
        let n = steps_of(f, v);
        moved(n % 10 * 16 + n / 10, f.place, f.width)
    }
}

// The bits of a year and of civil fields, in order.
fn pack<D: WriteDigits>(l: Layout, y: u64, c: Civil) -> u64
    requires { Packs D.digits l y c }
    ensures { result ≡ packed l y c }
{
    D::placed_value(l.year, y)
        + D::placed_value(l.month, c.month)
        + D::placed_value(l.day, c.day)
        + D::placed_value(l.hour, c.hour)
        + D::placed_value(l.minute, c.minute)
        + D::placed_value(l.second, c.second)
}

// Whether a year is one that the layout writes, by its 64 bits: a negative one has bits above every last year.
fn writes_year(l: Layout, y: u64) -> bool
    ensures { result ≡ in_years l y }
{
    l.year.offset <= y && y <= l.last
}

// The bits of a civil time, in order.
//
// Kept: a clause for the kind of digits beside the type, as where fields are read (`unpacking`).
pub fn write<D: WriteDigits>(l: Layout, c: Civil) -> Result<u64, Refusal>
    requires writable { (Writable l) × (Ranged c) }
    requires digits { l.digits ≡ D.digits }
    ensures { answer_of result ≡ write_bits l c }
{
    let y = to_bits(c.year);
    if writes_year(l, y) {
        Ok(pack::<D>(l, y, c))
    } else {
        Err(Refusal::Year)
    }
}

// The number at a place of a word: of bits, and of pairs of decimal digits.
//
// Ported from timeglyph's src/registry.rs (Apache-2.0; see NOTICE), and changed.
ghost use Rattle.std.specs.Prelude.{◌≡◌, ◌/◌, ◌%◌, ◌^◌, ◌<◌};

use layouts::hundreds;

// The number in the `width` bits from `place` on.
pub fn cut(word: u64, place: u32, width: u32) -> u64
    requires { (place < 64) × (width < 64) }
    ensures { result ≡ word / 2 ^ place % 2 ^ width }
{
    (word >> place) % (1 << width)
}

// The k-th pair of decimal digits from the low end, taken one digit at a time.
#[tactic(auto, using(layouts::proofs::SixPairs::counts_some))]
pub fn pair(word: u64, k: u32) -> u64
    requires { k < 6 }
    ensures { result ≡ word / 100 ^ k % 100 }
{
    let rest = word / hundreds(k);
    let ones = rest % 10;
    let tens = rest / 10 % 10;
    tens * 10 + ones
}

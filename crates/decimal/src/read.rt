// Reading one number from a whole text: the digits first, then the sign and the range.
ghost use Rattle.std.specs.Prelude.{◌≡◌};
ghost use Rattle.decimal.specs.Read.{natural_of, positive, negative, number_in};

// The number that 1 to 19 digits make: as many as never pass a u64.
#[tactic(auto, using(crate::proofs::Reading::small))]
fn natural_in(text: &[u8]) -> Option<u64>
    ensures { result ≡ natural_of text.now }
{
    if text.is_empty() || 19 < text.len() {
        return None;
    }
    let mut value: u64 = 0;
    for &b in text {
        if !b.is_ascii_digit() {
            return None;
        }
        let digit = u64::from(b - b'0');
        value = value * 10 + digit;
    }
    Some(value)
}

// The number of digits without a minus.
#[tactic(auto, unfolding(crate::specs::Read::positive))]
fn positive_of(n: u64) -> Option<i64>
    ensures { result ≡ positive n }
{
    i64::try_from(n).ok()
}

// The number of digits behind a minus.
#[tactic(auto, unfolding(crate::specs::Read::negative))]
fn negative_of(n: u64) -> Option<i64>
    ensures { result ≡ negative n }
{
    0i64.checked_sub_unsigned(n)
}

// The number that all of text is: an optional minus, then 1 to 19 digits, and it fits an i64.
//
// Kept: by hand: what may not change: `number_in` (specs/Read) refuses a plus and a twentieth digit, which `parse` takes.
#[tactic(auto, using(crate::proofs::Reading::minus, crate::proofs::Reading::no_minus))]
pub fn number_in(text: &[u8]) -> Option<i64>
    ensures { result ≡ number_in text.now }
{
    match text.strip_prefix(b"-") {
        Some(digits) => negative_of(natural_in(digits)?),
        None => positive_of(natural_in(text)?),
    }
}

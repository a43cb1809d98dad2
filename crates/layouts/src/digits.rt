// The kinds of digits as types. What is written once over a kind of digits, reading in `unpacking` and writing in `packing`, is
// generic over these, so the machine's code has a copy for each kind.
ghost use Rattle.layouts.specs.declared.layouts.Digits.{Digits};
ghost use Rattle.layouts.specs.declared.layouts.Digits.TheVariants as kinds;

// A type for a kind of digits, which `digits` names.
pub trait DigitKind {
    ghost digits: { Digits };
}

// Bits, as `Digits::Bits`.
pub struct Bits;

impl DigitKind for Bits {
    ghost digits = { kinds.Bits };
}

// Pairs of decimal digits, as `Digits::Pairs`.
pub struct Pairs;

impl DigitKind for Pairs {
    ghost digits = { kinds.Pairs };
}

// Pairs in the other order, as `Digits::SwappedPairs`.
pub struct SwappedPairs;

impl DigitKind for SwappedPairs {
    ghost digits = { kinds.SwappedPairs };
}

// Semi-octets, as `Digits::SemiOctets`.
pub struct SemiOctets;

impl DigitKind for SemiOctets {
    ghost digits = { kinds.SemiOctets };
}

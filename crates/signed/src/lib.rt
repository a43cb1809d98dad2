// Signed numbers, exact below zero: division and remainder rounded down, a number's 64 bits and back, and a low part of
// a word read as signed. Every function is total: dividing by zero answers 0, and a width above 63 takes all 64 bits.
#![tactic(auto)]

ghost use Rattle.std.specs.Prelude.{◌≡◌, ◌<◌, ◌≤◌, ◌^◌};
ghost use Rattle.std.specs.Int.Signed.{mag};
ghost use Rattle.std.specs.Int.{w64, cast_signed, cast_unsigned};
ghost use Rattle.signed.specs.Floor.{flipped, floor_div, floor_rem};
ghost use Rattle.signed.specs.Extend.{low_signed};

// -1 - x, which no x overflows.
fn flip(x: i64) -> i64
    ensures { result ≡ flipped x }
{
    -1 - x
}

// n, of n and of -(n + 1).
fn size(x: i64) -> u64
    ensures { result ≡ mag x }
{
    if x < 0 { flip(x) as u64 } else { x as u64 }
}

// x / d, rounded down.
//
// Kept: by hand, as `rem_floor`, over `flip` and `size`: what may not change: d is any u64, and `div_euclid` takes a signed one.
pub fn div_floor(x: i64, d: u64) -> i64
    ensures { result ≡ floor_div x d }
{
    if d == 0 {
        return 0;
    }
    let q = (size(x) / d) as i64;
    if x < 0 { flip(q) } else { q }
}

// What x / d, rounded down, leaves: 0 to d - 1.
pub fn rem_floor(x: i64, d: u64) -> u64
    ensures { result ≡ floor_rem x d }
{
    if d == 0 {
        return 0;
    }
    let m = size(x) % d;
    if x < 0 { d - 1 - m } else { m }
}

// The 64 bits of x, two's complement, read as unsigned.
pub fn to_bits(x: i64) -> u64
    ensures { result ≡ cast_unsigned w64 x }
{
    x.cast_unsigned()
}

// The number whose 64 bits are n.
pub fn from_bits(n: u64) -> i64
    ensures { result ≡ cast_signed w64 n }
{
    n.cast_signed()
}

// 2 to the k.
fn power(k: u32) -> u64
    requires { k < 64 }
    ensures { (result ≡ 2 ^ k) × (0 < result) × (result ≤ 2 ^ 63) }
{
    1 << k
}

// The low `width` bits of n, two's complement.
pub fn sign_extended(n: u64, width: u32) -> i64
    ensures { result ≡ low_signed width n }
{
    if 63 < width {
        return from_bits(n);
    }
    let whole = power(width);
    let low = n % whole;
    if low < whole - low {
        low as i64
    } else {
        flip((whole - 1 - low) as i64)
    }
}

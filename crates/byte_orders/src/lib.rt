// The orders of a word's bytes. Each undoes itself.
//
// Every call is total: a word may have any 64 bits.
//
// Ported from timeglyph's src/registry.rs (Apache-2.0; see NOTICE), and changed.
#![tactic(auto)]

ghost use Rattle.std.specs.Prelude.{◌≡◌};
ghost use Rattle.byte_orders.specs.Orders.{reversed, year_swapped};

// The order of the word's bytes, from that of the fields' places.
#[derive(Clone, Copy, Debug, PartialEq, Eq)]
pub enum Order {
    Straight,
    // The low four bytes are reversed.
    Reversed,
    // The two bytes of a year that starts at bit 40 are exchanged.
    YearSwapped,
}

// The low four bytes reversed; what lies above stays.
#[tactic(auto, unfolding(crate::specs::Orders::reversed))]
pub fn reverse(p: u64) -> u64
    ensures { result ≡ reversed p }
{
    let low = (p % 4294967296) as u32;
    p / 4294967296 * 4294967296 + low.swap_bytes() as u64
}

// The two bytes from bit 40 on exchanged; what lies above and below stays.
//
// Kept: a sum of its parts: by `swap_bytes` of the year's 16 bits, 10^9 turns took 3.1 s in place of 2.4 s.
#[tactic(auto, unfolding(crate::specs::Orders::year_swapped))]
pub fn swap_year(p: u64) -> u64
    ensures { result ≡ year_swapped p }
{
    p / 1099511627776 % 256 * 281474976710656
        + p / 281474976710656 % 256 * 1099511627776
        + p % 1099511627776
        + p / 72057594037927936 * 72057594037927936
}

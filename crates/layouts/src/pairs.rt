// The six pairs of decimal digits, counted from 0 at the low end.
//
// Ported from timeglyph's src/registry.rs (Apache-2.0; see NOTICE), and changed.
ghost use Rattle.std.specs.Prelude.{◌≡◌};
ghost use Rattle.layouts.specs.Pairs.{pair_count};

// What a pair counts; nothing where there is none.
pub fn hundreds(k: u32) -> u64
    ensures { result ≡ pair_count k }
{
    match k {
        0 => 1,
        1 => 100,
        2 => 10000,
        3 => 1000000,
        4 => 100000000,
        5 => 10000000000,
        _ => 0,
    }
}

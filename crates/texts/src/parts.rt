// The first bytes of a text.
ghost use Rattle.std.specs.Prelude.{◌≡◌, take};

// The first n bytes of s: all of it where it has fewer.
pub fn first(s: &[u8], n: usize) -> &[u8]
    ensures { result.now ≡ take n s.now }
{
    s.get(..n).unwrap_or(s)
}

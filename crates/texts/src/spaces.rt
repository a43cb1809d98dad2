// The two sides of a text's first space.
ghost use Rattle.std.specs.Prelude.{◌≡◌, ◌+◌, ◌≤◌, length, take, drop};
ghost use Rattle.texts.specs.Spaces.{before_space, after_space};

// Where the first space stands; the length where there is none.
fn space_in(s: &[u8]) -> usize
    ensures before { before_space s.now ≡ take result s.now }
    ensures after { after_space s.now ≡ drop (result + 1) s.now }
    ensures within { result ≤ length s.now }
{
    s.iter().position(|b| *b == b' ').unwrap_or(s.len())
}

// What stands before the first space: all of s where there is none.
pub fn before_space(s: &[u8]) -> &[u8]
    ensures { result.now ≡ before_space s.now }
{
    &s[..space_in(s)]
}

// What stands after the first space: nothing where there is none.
pub fn after_space(s: &[u8]) -> &[u8]
    ensures { result.now ≡ after_space s.now }
{
    s.get(space_in(s) + 1..).unwrap_or(&[])
}

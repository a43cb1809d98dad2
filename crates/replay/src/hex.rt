// Bytes as hex: two digits for each, lower-case, and `-` for no bytes.
ghost use Rattle.std.specs.Prelude.{◌<◌, IfSome};

// What a digit is worth. (Kept: by hand: what may not change: `to_digit` takes capitals.)
fn digit_of(b: u8) -> Option<u8>
    ensures { IfSome result (λ digit. digit < 16) }
{
    match b {
        b'0'..=b'9' => Some(b - b'0'),
        b'a'..=b'f' => Some(b - b'a' + 10),
        _ => None,
    }
}

// Room for the bytes of any line: half as many as the longest has.
//
// Kept: room and a number beside it: no plainer as a struct, which `first` would take apart at once.
pub fn room() -> [u8; 16384] {
    [0; 16384]
}

// How many bytes the pairs of text are, which stand at the start of `out` then. None where a byte is no digit, where a digit has
// no other, and where `out` has no room.
fn pairs_in(text: &[u8], out: &mut [u8]) -> Option<usize> {
    let n = text.len() / 2;
    if text.len() % 2 != 0 {
        return None;
    }
    if out.len() < n {
        return None;
    }
    for (pair, byte) in text.chunks_exact(2).zip(out.iter_mut()) {
        *byte = digit_of(pair[0])? * 16 + digit_of(pair[1])?;
    }
    Some(n)
}

// How many bytes all of text is, which stand at the start of `out` then. An empty text is none.
pub fn bytes_in(text: &[u8], out: &mut [u8]) -> Option<usize> {
    match text {
        b"-" => Some(0),
        [] => None,
        _ => pairs_in(text, out),
    }
}

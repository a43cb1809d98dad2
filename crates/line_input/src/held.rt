// The line that is held: a byte more, and a block's bytes up to an LF.
ghost use Rattle.std.specs.Prelude.{◌≡◌, ◌+◌, drop};
ghost use Rattle.line_input.specs.Held.{holds, kept, Takes};

// After a part of a block was taken: how many bytes of the line are held, the index behind the last byte that was taken,
// and whether that was the line's LF.
//
// Kept: what may not change: `Takes` (specs/Held) speaks of all three, whole or not.
#[derive(Clone, Copy, Debug, PartialEq, Eq)]
pub struct Taken {
    pub held: usize,
    pub next: usize,
    pub whole: bool,
}

// Holds a byte behind the n that are held, and answers how many are held then. A byte for which there is no room is
// dropped.
//
// Kept: bytes and n beside each other, here and in `take_line`: what may not change: `kept` (specs/Held) has any slice and any n.
#[tactic(auto, unfolding(crate::specs::Held::kept))]
pub fn keep(held: &mut [u8], n: usize, b: u8) -> usize
    ensures value { result ≡ (kept (holds held.old n) b).count }
    ensures held_after { held.new ≡ (kept (holds held.old n) b).bytes }
{
    // Kept: by index: `get_mut` was tried, and the proof did not close: the library does not say what it leaves.
    if n < held.len() {
        held[n] = b;
        return n + 1;
    }
    n
}

// The bytes of a block from index `from` on: none where it ends before.
fn from_on(block: &[u8], from: usize) -> &[u8]
    ensures { result.now ≡ drop from block.now }
{
    block.get(from..).unwrap_or(&[])
}

// Takes bytes of a block from index `from` on, up to an LF, and holds them behind the n that are held. The LF is taken and
// not held. Where there is none, all bytes are taken.
pub fn take_line(held: &mut [u8], n: usize, block: &[u8], from: usize) -> Taken
    ensures { Takes (holds held.old n) (drop from block.now) from result held.new }
{
    let rest = from_on(block, from);
    let mut len = n;
    for (i, &b) in rest.iter().enumerate() {
        if b == b'\n' {
            return Taken {
                held: len,
                next: from + i + 1,
                whole: true,
            };
        }
        len = keep(held, len, b);
    }
    Taken {
        held: len,
        next: from + rest.len(),
        whole: false,
    }
}

// A text put into a buffer.
ghost use Rattle.std.specs.Prelude.{◌≡◌};
ghost use Rattle.texts.specs.Buffer.{written};

// Copies text into out from index `at` on and answers the index behind it. Where there is no room for all of it, out
// stays as it is and the answer is `at`.
//
// Kept: what may not change: `written` (specs/Buffer) has `at` for an answer there.
#[tactic(auto, unfolding(crate::specs::Buffer::written))]
pub fn put(out: &mut [u8], at: usize, text: &[u8]) -> usize
    ensures value { result ≡ (written out.old at text.now).next }
    ensures out_after { out.new ≡ (written out.old at text.now).bytes }
{
    if out.len() < at || out.len() - at < text.len() {
        return at;
    }
    let next = at + text.len();
    out[at..next].copy_from_slice(text);
    next
}

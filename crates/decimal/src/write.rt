// Writing a number.
ghost use Rattle.std.specs.Prelude.{◌≡◌, ◌≤◌, length, drop};
ghost use Rattle.texts.specs.Buffer.{written};
ghost use Rattle.decimal.specs.Write.{show_nat, show_int, at_end};

use texts::put;

// A text of at most 20 bytes, as many as an i64 takes: it stands from index `from` to the end of `bytes`.
//
// Kept: the project has no heap, so a text is an array, and where it starts.
#[derive(Clone, Copy, Debug, PartialEq, Eq)]
pub struct Text {
    pub bytes: [u8; 20],
    pub from: usize,
}

// n's digits, the last one first. They leave room for a minus.
//
// Kept: a `for` over the places is no plainer: it needs an answer for when it ends, and no n gets there.
fn digits_of(n: u64) -> Text
    requires { n ≤ 9223372036854775808 }
    ensures { result ≡ at_end (show_nat n) }
{
    let mut bytes = [0u8; 20];
    let mut left = n;
    let mut from: usize = 19;
    while 10 <= left {
        let digit = (left % 10) as u8;
        bytes[from] = b'0' + digit;
        left /= 10;
        from -= 1;
    }
    let digit = left as u8;
    bytes[from] = b'0' + digit;
    Text { bytes, from }
}

// z in decimal, with a minus where it is negative and no leading zeros. The bytes before it are 0. What a caller needs
// to lend the text follows from the first clause, and is stated so that it is found.
//
// Kept: by hand: what may not change: `at_end` (specs/Write) says where the text stands in 20 bytes.
pub fn text_of(z: i64) -> Text
    ensures value { result ≡ at_end (show_int z) }
    ensures text { drop result.from result.bytes ≡ show_int z }
    ensures start { result.from ≤ 20 }
    ensures room { 20 ≡ length result.bytes }
{
    let digits = digits_of(z.unsigned_abs());
    if z < 0 {
        let from = digits.from - 1;
        let mut bytes = digits.bytes;
        bytes[from] = b'-';
        return Text { bytes, from };
    }
    digits
}

// Puts z in decimal into out from index `at` on, as `texts::put` puts a text.
pub fn put_number(out: &mut [u8], at: usize, z: i64) -> usize
    ensures value { result ≡ (written out.old at (show_int z)).next }
    ensures out_after { out.new ≡ (written out.old at (show_int z)).bytes }
{
    let text = text_of(z);
    put(out, at, &text.bytes[text.from..])
}

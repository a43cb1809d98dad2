// The composite stamps that come in bytes. A stamp that is hex is asked about whatever its length.
use crate::answers::say;
use crate::hex::{bytes_in, room};
use instant::Instant;
use refusal::Refusal;
use texts::first;

// HEX, by the decoder of its stamp.
pub fn answer<F: Fn(&[u8]) -> Result<Instant, Refusal>>(
    decode: F,
    text: &[u8],
    out: &mut [u8],
) -> Option<usize>
    requires { F.IsAlwaysCallable decode }
{
    let mut bytes = room();
    let n = bytes_in(text, &mut bytes)?;
    Some(say(out, decode(first(&bytes, n))))
}

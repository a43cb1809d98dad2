// The composite stamps that come in two numbers. The second number is all that is left, so that another one spoils it.
use crate::answers::say;
use crate::numbers::narrow_in;
use decimal::number_in;
use number_stamps::{filetime_hilo, unix_sec_nsec, vmsd};
use texts::{after_space, before_space};

// LOW HIGH.
pub fn filetime(text: &[u8], out: &mut [u8]) -> Option<usize> {
    let low = narrow_in(before_space(text))?;
    let high = narrow_in(after_space(text))?;
    Some(say(out, filetime_hilo(low, high)))
}

// HIGH LOW.
pub fn vmsd_pair(text: &[u8], out: &mut [u8]) -> Option<usize> {
    let high = narrow_in(before_space(text))?;
    let low = narrow_in(after_space(text))?;
    Some(say(out, vmsd(high, low)))
}

// SECONDS NANOS.
pub fn unix(text: &[u8], out: &mut [u8]) -> Option<usize> {
    let seconds = number_in(before_space(text))?;
    let nanos = narrow_in(after_space(text))?;
    Some(say(out, unix_sec_nsec(seconds, nanos)))
}

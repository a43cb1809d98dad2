// Numbers as bytes, the low byte first. This is the one place that has that order; whoever keeps numbers in bytes calls it.
//
// Every call is total: a slice may have any length.
#![tactic(auto)]

ghost use Rattle.std.specs.Prelude.{◌≡◌, ◌≤◌, length, take, slice_index};
ghost use Rattle.octets.specs.Octets.{number_of, bytes_of};

// Byte k of s: 0 where it has fewer.
pub fn byte_at(s: &[u8], k: usize) -> u8
    ensures { result ≡ slice_index s.now k }
{
    s.get(k).copied().unwrap_or(0)
}

// The bytes of s, which are N at most, and zeros behind them.
#[tactic(auto, using(crate::proofs::Parts::zeros_behind))]
fn padded<const N: usize>(s: &[u8]) -> [u8; N]
    requires { length s.now ≤ N }
    ensures value { number_of result ≡ number_of s.now }
    ensures long { length result ≡ N }
{
    let mut bytes = [0; N];
    bytes[..s.len()].copy_from_slice(s);
    bytes
}

// The number of the first eight bytes of s: of all of them where it has fewer. Where they are there, the machine reads them
// in one.
//
// Kept: what may not change: three calls stand (docs/CONTRACTS.md), each of a type with a `from_le_bytes` of its own.
pub fn get64(s: &[u8]) -> u64
    ensures { result ≡ number_of (take 8 s.now) }
{
    match s.first_chunk() {
        Some(bytes) => u64::from_le_bytes(*bytes),
        None => u64::from_le_bytes(padded(s)),
    }
}

// The number of the first four bytes of s, as get64 has it.
pub fn get32(s: &[u8]) -> u32
    ensures { result ≡ number_of (take 4 s.now) }
{
    match s.first_chunk() {
        Some(bytes) => u32::from_le_bytes(*bytes),
        None => u32::from_le_bytes(padded(s)),
    }
}

// The number of the first two bytes of s, as get64 has it.
pub fn get16(s: &[u8]) -> u16
    ensures { result ≡ number_of (take 2 s.now) }
{
    match s.first_chunk() {
        Some(bytes) => u16::from_le_bytes(*bytes),
        None => u16::from_le_bytes(padded(s)),
    }
}

// Writes the low bytes of n over dst, as many as it has.
//
// Kept: by division: what may not change: dst may have more bytes than the eight of `to_le_bytes`.
#[tactic(auto, using(crate::proofs::Parts::one_more))]
pub fn put(dst: &mut [u8], n: u64)
    ensures { dst.new ≡ bytes_of (length dst.old) n }
{
    let mut left = n;
    for byte in dst.iter_mut() {
        *byte = (left % 256) as u8;
        left /= 256;
    }
}

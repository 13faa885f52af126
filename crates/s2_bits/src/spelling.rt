//! Bytes and their bits, the highest first.
ghost use Rattle.std.specs.Prelude.{◌≡◌, ℕ, ◌+◌, ◌*◌, ◌<◌, ◌≤◌, IfOk, length, take};
ghost use Rattle.s2_bits.specs.Bits.{bit_at, number, byte_at, bytes_from, bits_of_byte, bits_of_bytes};

use std::alloc::{AllocError, Global};

/// The bits of each number below 16, the highest first. A static, since a constant would be built anew
/// at each byte.
static NIBBLE_BITS: [[bool; 4]; 16] = [
    [false, false, false, false],
    [false, false, false, true],
    [false, false, true, false],
    [false, false, true, true],
    [false, true, false, false],
    [false, true, false, true],
    [false, true, true, false],
    [false, true, true, true],
    [true, false, false, false],
    [true, false, false, true],
    [true, false, true, false],
    [true, false, true, true],
    [true, true, false, false],
    [true, true, false, true],
    [true, true, true, false],
    [true, true, true, true],
];

/// The bits of a byte, the highest first.
fn byte_bits(byte: u8) -> [bool; 8]
    ensures { result ≡ bits_of_byte byte }
{
    let [a, b, c, d] = NIBBLE_BITS[usize::from(byte / 16)];
    let [e, f, g, h] = NIBBLE_BITS[usize::from(byte % 16)];
    [a, b, c, d, e, f, g, h]
}

/// The bits of bytes, each byte's highest bit first, with room for so many bits.
pub(crate) fn bits_of(alloc: Global, bytes: &[u8], room: usize) -> Result<Vec<bool>, AllocError>
    ensures { IfOk result (λ v. v.items ≡ bits_of_bytes bytes.now) }
{
    let mut bits = Vec::with_capacity(alloc, room)?;
    for byte in bytes {
        bits.extend_from_slice(&byte_bits(*byte))?;
    }
    Ok(bits)
}

/// Writes the bits of bytes, each byte's highest bit first.
pub fn bits_into(bytes: &[u8], bits: &mut [bool])
    requires { length bits.old ≡ 8 * length bytes.now }
    ensures { bits.new ≡ bits_of_bytes bytes.now }
{
    for i in 0..bytes.len() {
        let at = 8 * i;
        let [a, b, c, d, e, f, g, h] = byte_bits(bytes[i]);
        bits[at] = a;
        bits[at + 1] = b;
        bits[at + 2] = c;
        bits[at + 3] = d;
        bits[at + 4] = e;
        bits[at + 5] = f;
        bits[at + 6] = g;
        bits[at + 7] = h;
    }
}

fn digit(truth: bool) -> u8
    ensures is { result ≡ number truth }
    ensures small { result ≤ 1 }
{
    u8::from(truth)
}

/// The eight bits from a place on as a byte, the first the highest. The product puts each of eight
/// digits, a byte each, at its own place of the highest byte, and nothing is carried into it.
pub fn byte_at(bits: &[bool], at: usize) -> u8
    requires { at + 8 ≤ length bits.now }
    ensures { result ≡ byte_at bits.now at }
{
    let digits = u64::from_le_bytes([
        digit(bits[at]),
        digit(bits[at + 1]),
        digit(bits[at + 2]),
        digit(bits[at + 3]),
        digit(bits[at + 4]),
        digit(bits[at + 5]),
        digit(bits[at + 6]),
        digit(bits[at + 7]),
    ]);
    (digits.wrapping_mul(0x8040201008040201) >> 56) as u8
}

/// Writes `count` of the bytes that bits spell, from byte `first` on.
pub fn bytes_from(bits: &[bool], first: usize, count: usize, bytes: &mut [u8])
    requires bits { 8 * (first + count) ≤ length bits.now }
    requires room { count ≤ length bytes.old }
    ensures { take count bytes.new ≡ bytes_from first count bits.now }
{
    for i in 0..count {
        bytes[i] = byte_at(bits, 8 * (first + i));
    }
}

//! CRC-8 (EN 302 307-1, 5.1.4).
ghost use Rattle.std.specs.Prelude.{◌≡◌, ◌%◌, length};
ghost use Rattle.s2_bits.specs.Bits.{bits_of_byte, bits_of_bytes};
ghost use Rattle.s2_bbframe.specs.Crc.{remainder, crc8};

use crate::table::{BY_8, BY_16, BY_24, BY_32};

// one byte further
fn next_byte(crc: u8, byte: u8) -> u8
    ensures { result ≡ remainder crc (bits_of_byte byte) }
{
    BY_8[usize::from(crc ^ byte)]
}

// four bytes further
fn next_four(crc: u8, bytes: &[u8]) -> u8
    requires { length bytes.now ≡ 4 }
    ensures { result ≡ remainder crc (bits_of_bytes bytes.now) }
{
    BY_32[usize::from(crc ^ bytes[0])]
        ^ BY_24[usize::from(bytes[1])]
        ^ BY_16[usize::from(bytes[2])]
        ^ BY_8[usize::from(bytes[3])]
}

// four at a time
fn over_fours(bytes: &[u8]) -> u8
    requires { length bytes.now % 4 ≡ 0 }
    ensures { result ≡ crc8 bytes.now }
{
    let mut crc = 0;
    for f in 0..bytes.len() / 4 {
        crc = next_four(crc, &bytes[4 * f..4 * f + 4]);
    }
    crc
}

// any number of bytes further
fn over_bytes(start: u8, bytes: &[u8]) -> u8
    ensures { result ≡ remainder start (bits_of_bytes bytes.now) }
{
    let mut crc = start;
    for byte in bytes {
        crc = next_byte(crc, *byte);
    }
    crc
}

/// The CRC-8 of these bytes: the remainder of their polynomial times x^8 by
/// x^8 + x^7 + x^6 + x^4 + x^2 + 1, the first bit being the highest power.
pub fn crc8(bytes: &[u8]) -> u8
    ensures { result ≡ crc8 bytes.now }
{
    let (fours, rest) = bytes.split_at(bytes.len() - bytes.len() % 4);
    over_bytes(over_fours(fours), rest)
}

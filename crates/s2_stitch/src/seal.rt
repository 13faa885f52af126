//! The seal that binds a record to its frame.
ghost use Rattle.std.specs.Prelude.{◌≡◌, ◌+◌, ◌*◌, ◌^◌, ◌<◌, ◌≤◌, fold, length, pos, slice_index_or};
ghost use Rattle.std.specs.Int.{cast_unsigned, w16};
ghost use Rattle.s2_certfile.specs.Field.{bytes_of_bits};
ghost use Rattle.s2_stitch.specs.Records.{eight_at, eights_of, four_at, seal_of, soft_sum, sum_step};

use crate::verdicts::verdict_byte;
use s2_bits::{Bits, byte_at};
use s2_check::Verdict;

/// The factor of a sum's steps. It is odd, so each step can be undone.
const FACTOR: u64 = 6_364_136_223_846_793_005;

/// A sum with one number more.
fn step(sum: u64, number: u64) -> u64
    ensures { result ≡ sum_step sum number }
{
    sum.wrapping_mul(FACTOR).wrapping_add(number)
}

/// A soft value in sixteen bits.
fn value_at(soft: &[i16], at: usize) -> u64
    requires { at < length soft.now }
    ensures is { result ≡ cast_unsigned w16 (slice_index_or soft.now at (pos 0)) }
    ensures small { result < 65536 }
{
    u64::from(soft[at].cast_unsigned())
}

/// The same, and zero past the end.
fn padded_value(soft: &[i16], at: usize) -> u64
    ensures is { result ≡ cast_unsigned w16 (slice_index_or soft.now at (pos 0)) }
    ensures small { result < 65536 }
{
    if at < soft.len() {
        value_at(soft, at)
    } else {
        0
    }
}

/// Four numbers of sixteen bits as one, the first one lowest.
fn joined(a: u64, b: u64, c: u64, d: u64) -> u64
    requires { (a < 65536) × (b < 65536) × (c < 65536) × (d < 65536) }
    ensures { result ≡ a + 65536 * b + 4294967296 * c + 281474976710656 * d }
{
    a + 65_536 * b + 4_294_967_296 * c + 281_474_976_710_656 * d
}

/// Four soft values as one number.
fn four_at(soft: &[i16], at: usize) -> u64
    requires { at + 4 < 2 ^ 64 }
    ensures { result ≡ four_at soft.now at }
{
    if at + 4 <= soft.len() {
        joined(
            value_at(soft, at),
            value_at(soft, at + 1),
            value_at(soft, at + 2),
            value_at(soft, at + 3),
        )
    } else {
        joined(
            padded_value(soft, at),
            padded_value(soft, at + 1),
            padded_value(soft, at + 2),
            padded_value(soft, at + 3),
        )
    }
}

/// The two sums of soft values, which a processor computes side by side.
fn soft_sums(soft: &[i16]) -> (u64, u64)
    ensures first { result.0 ≡ soft_sum soft.now 0 }
    ensures second { result.1 ≡ soft_sum soft.now 1 }
{
    let (mut first, mut second) = (0, 0);
    'eights: for k in 0..soft.len().div_ceil(8) {
        first = step(first, four_at(soft, 8 * k));
        second = step(second, four_at(soft, 8 * k + 4));
    }
    (first, second)
}

/// A byte, and zero past the end.
fn padded_byte(bytes: &[u8], at: usize) -> u8
    ensures { result ≡ slice_index_or bytes.now at 0 }
{
    if at < bytes.len() { bytes[at] } else { 0 }
}

/// Eight bytes as one number.
fn eight_at(bytes: &[u8], at: usize) -> u64
    requires { at + 8 < 2 ^ 64 }
    ensures { result ≡ eight_at bytes.now at }
{
    if at + 8 <= bytes.len() {
        u64::from_le_bytes([
            bytes[at],
            bytes[at + 1],
            bytes[at + 2],
            bytes[at + 3],
            bytes[at + 4],
            bytes[at + 5],
            bytes[at + 6],
            bytes[at + 7],
        ])
    } else {
        u64::from_le_bytes([
            padded_byte(bytes, at),
            padded_byte(bytes, at + 1),
            padded_byte(bytes, at + 2),
            padded_byte(bytes, at + 3),
            padded_byte(bytes, at + 4),
            padded_byte(bytes, at + 5),
            padded_byte(bytes, at + 6),
            padded_byte(bytes, at + 7),
        ])
    }
}

/// A sum with these bytes, eight at a time.
fn with_bytes(mut sum: u64, bytes: &[u8]) -> u64
    ensures { result ≡ fold sum_step sum (eights_of bytes.now) }
{
    'eights: for k in 0..bytes.len().div_ceil(8) {
        sum = step(sum, eight_at(bytes, 8 * k));
    }
    sum
}

/// Byte i of bits.
fn whole_byte(bits: &[bool], i: usize) -> u8
    requires { 8 * i + 8 ≤ length bits.now }
    ensures { result ≡ slice_index_or (bytes_of_bits bits.now) i 0 }
{
    byte_at(bits, 8 * i)
}

/// The same, with zeros past the end.
fn padded_bits(word: &Bits, i: usize) -> u8
    ensures { result ≡ slice_index_or (bytes_of_bits word.now) i 0 }
{
    if i < word.len().div_ceil(8) {
        word.byte(i)
    } else {
        0
    }
}

/// Eight bytes of bits as one number.
fn bits_eight(word: &Bits, at: usize) -> u64
    requires { at < 2 ^ 62 }
    ensures { result ≡ eight_at (bytes_of_bits word.now) at }
{
    let bits = word.truths();
    if at + 8 <= bits.len() / 8 {
        u64::from_le_bytes([
            whole_byte(bits, at),
            whole_byte(bits, at + 1),
            whole_byte(bits, at + 2),
            whole_byte(bits, at + 3),
            whole_byte(bits, at + 4),
            whole_byte(bits, at + 5),
            whole_byte(bits, at + 6),
            whole_byte(bits, at + 7),
        ])
    } else {
        u64::from_le_bytes([
            padded_bits(word, at),
            padded_bits(word, at + 1),
            padded_bits(word, at + 2),
            padded_bits(word, at + 3),
            padded_bits(word, at + 4),
            padded_bits(word, at + 5),
            padded_bits(word, at + 6),
            padded_bits(word, at + 7),
        ])
    }
}

/// A sum with bits, eight bytes of them at a time.
fn with_bits(mut sum: u64, word: &Bits) -> u64
    ensures { result ≡ fold sum_step sum (eights_of (bytes_of_bits word.now)) }
{
    'eights: for k in 0..word.len().div_ceil(8).div_ceil(8) {
        sum = step(sum, bits_eight(word, 8 * k));
    }
    sum
}

/// The seal of a record: a sum of the soft values of its frame and of all that the record says. So a record of another frame, and an
/// altered record, has another seal. `seed` is a number that identifies the rows and the options of the receiver.
pub fn seal_of(
    seed: u64,
    soft: &[i16],
    at: u64,
    rounds: u32,
    verdict: Option<Verdict>,
    word: &Bits,
    certificate: &[u8],
) -> u64
    ensures { result ≡ seal_of seed soft.now (record { at = at; seal = 0; rounds = rounds; verdict = verdict; bits = word.now; certificate = certificate.now }) }
{
    let (first, second) = soft_sums(soft);
    let sum = step(step(seed, first), second);
    let sum = step(step(sum, at), u64::from(rounds));
    let sum = step(sum, u64::from(verdict_byte(verdict)));
    with_bytes(with_bits(sum, word), certificate)
}

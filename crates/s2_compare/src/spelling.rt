//! The bits of a record.
ghost use Rattle.std.specs.Prelude.{◌≡◌, ◌+◌, ◌*◌, ◌≤◌, ◌↔◌, IsTrue, Bool, List, false, length, map, replicate, take};
ghost use Rattle.s2_bits.specs.Bits.{bits_of_bytes};
ghost use Rattle.s2_compare.specs.Devices.{digit, digits_line};

use s2_bits::{Bits, bits_into};

/// Writes the bits of digits. False if a digit is not 0 or 1.
fn digits_into(digits: &[u8], word: &mut [bool]) -> bool
    requires { length word.old ≡ length digits.now }
    ensures size { length word.new ≡ length word.old }
    ensures are { IsTrue result → digits.now ≡ map digit word.new }
    ensures none { result ≡ false → (bits : List Bool) → digits.now ≡ map digit bits → ⊥ }
{
    'digits: for i in 0..digits.len() {
        if digits[i] != 48 && digits[i] != 49 {
            return false;
        }
        word[i] = digits[i] == 49;
    }
    true
}

/// Writes the bits of a line of digits 0 and 1. False if the bytes are no such line.
pub(crate) fn line_into(line: &[u8], word: &mut Bits) -> bool
    requires { length line.now ≡ length word.old + 1 }
    ensures size { length word.new ≡ length word.old }
    ensures are { IsTrue result → line.now ≡ digits_line word.new }
    ensures none { result ≡ false → (bits : List Bool) → line.now ≡ digits_line bits → ⊥ }
{
    let (digits, end) = line.split_at(word.len());
    if end[0] != 10 {
        return false;
    }
    digits_into(digits, word.truths_mut())
}

/// Whether all bytes are zero.
pub(crate) fn is_nothing(bytes: &[u8]) -> bool
    ensures { IsTrue result ↔ (bytes.now ≡ replicate (length bytes.now) 0) }
{
    'bytes: for i in 0..bytes.len() {
        if bytes[i] != 0 {
            return false;
        }
    }
    true
}

/// Writes the first bits of bytes, each byte's highest first. `wide` has room for all of their bits.
pub(crate) fn unpack(bytes: &[u8], wide: &mut Bits, word: &mut Bits)
    requires wide { length wide.old ≡ 8 * length bytes.now }
    requires word { length word.old ≤ length wide.old }
    ensures are { word.new ≡ take (length word.old) (bits_of_bytes bytes.now) }
    ensures size { length word.new ≡ length word.old }
    ensures wide { length wide.new ≡ length wide.old }
{
    bits_into(bytes, wide.truths_mut());
    let size = word.len();
    word.truths_mut().copy_from_slice(&wide.truths()[..size]);
}

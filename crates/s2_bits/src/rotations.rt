//! Rotated rows of bits.
ghost use Rattle.std.specs.Prelude.{◌≡◌, ℕ, ◌<◌, ◌≤◌, length};
ghost use Rattle.s2_bits.specs.Bits.{xor, bit_at};
ghost use Rattle.s2_bits.specs.Rotations.{rotated};

use crate::bools::xor_first;

/// Adds the bits, rotated by `shift` places, to a row of the same length. Place k takes the bit at
/// `(k + n - shift) mod n` of n.
pub fn add_rotated(row: &mut [bool], bits: &[bool], shift: usize)
    requires same { length bits.now ≡ length row.old }
    requires rotation { shift ≤ length bits.now }
    ensures long { length row.new ≡ length row.old }
    ensures added { (k : ℕ) → k < length bits.now
        → bit_at row.new k ≡ xor (bit_at row.old k) (bit_at bits.now (rotated (length bits.now) shift k)) }
{
    let (low, high) = bits.split_at(bits.len() - shift);
    let (first, last) = row.split_at_mut(shift);
    xor_first(first, high, shift);
    xor_first(last, low, low.len());
}

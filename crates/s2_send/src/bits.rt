//! The bits of a header and its data field (EN 302 307-1, 5.2.1).
ghost use Rattle.std.specs.Prelude.{◌≡◌, ◌+◌, ◌*◌, ◌≤◌, length};
ghost use Rattle.s2_send.specs.Frames.{padded_bits};

use s2_bits::bits_into;

/// Writes the bits of a header and of its data field, each byte's highest first, and then zeros to the end.
pub fn frame_bits_into(header: &[u8; 10], field: &[u8], bits: &mut [bool])
    requires { 80 + 8 * length field.now ≤ length bits.old }
    ensures { bits.new ≡ padded_bits (length bits.old) header.now field.now }
{
    let (front, behind) = bits.split_at_mut(80);
    let (middle, rest) = behind.split_at_mut(8 * field.len());
    bits_into(header, front);
    bits_into(field, middle);
    rest.fill(false);
}

//! The length of a certificate, from its header.
ghost use Rattle.std.specs.Prelude.{◌≡◌, ◌+◌, ◌≤◌, List, ℕ, length, take, drop};
ghost use Rattle.std.specs.Int.{w16, w32, from_be_bytes};
ghost use Rattle.s2_evidence.specs.Pieces.{IsPiece, head_bytes, max_piece};

use s2_certfile::MAX_SHARES;
use s2_mode::Shape;

/// The bytes of the longer header, that of version 1. Every certificate has more.
pub(crate) const HEAD_BYTES: usize = 17;

/// The maximum length of a certificate in bytes.
pub(crate) const MAX_PIECE: usize = 6_358_517;

/// The number of two bytes at a place.
fn number16(bytes: &[u8], at: usize) -> usize
    requires { at + 2 ≤ length bytes.now }
    ensures { result ≡ from_be_bytes w16 (take 2 (drop at bytes.now)) }
{
    let (_, rest) = bytes.split_at(at);
    let (number, _) = rest.split_at(2);
    usize::from(u16::from_be_bytes([number[0], number[1]]))
}

/// The number of four bytes at a place.
fn number32(bytes: &[u8], at: usize) -> usize
    requires { at + 4 ≤ length bytes.now }
    ensures { result ≡ from_be_bytes w32 (take 4 (drop at bytes.now)) }
{
    let (_, rest) = bytes.split_at(at);
    let (number, _) = rest.split_at(4);
    u32::from_be_bytes([number[0], number[1], number[2], number[3]]) as usize
}

/// The length of a certificate that begins with these bytes, from its header. If the header is refused, no more bytes
/// are needed.
pub(crate) fn piece_size(head: &[u8]) -> usize
    requires { length head.now ≡ head_bytes }
    ensures piece { (bytes : List ℕ) (missing : ℕ) → take head_bytes bytes ≡ head.now → head_bytes ≤ length bytes → length bytes + missing ≡ result → IsPiece bytes missing }
    ensures least { head_bytes ≤ result }
    ensures most { result ≤ max_piece }
{
    let numbers = (number16(head, 5), number16(head, 7), number16(head, 9));
    let Some(shape) = Shape::new(numbers.0, numbers.1, numbers.2) else {
        return HEAD_BYTES;
    };
    let n = shape.n();
    let values = 2 * n + (n + 7) / 8;
    if head[4] != 1 {
        return 13 + values + 6 * shape.checks();
    }
    let count = number32(head, 13);
    if count > MAX_SHARES {
        return HEAD_BYTES;
    }
    HEAD_BYTES + values + 4 * count
}

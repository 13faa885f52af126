//! The bytes of a packet that has not come as a whole.
ghost use Rattle.std.specs.Prelude.{◌≡◌, ◌+◌, ◌≤◌, ◌⊎◌, ◌↔◌, [], ◌++◌, length, take, IfSome, IsSome};
ghost use Rattle.s2_bbframe.specs.Limits.{packet_bytes};

use s2_bbframe::PACKET_BYTES;
use std::marker::Model;

/// Holds the first bytes of a packet. They are its value.
#[derive(Drop)]
pub(crate) struct PartPacket {
    bytes: [u8; PACKET_BYTES],
    count: usize,
}

impl Model for PartPacket {
    ghost use Rattle.std.specs.Prelude.{ℕ, List, ◌≤◌, take};
    ghost use Rattle.s2_bbframe.specs.Limits.{packet_bytes};

    ghost Value = { List ℕ };

    ghost view = { λ p. take p.count p.bytes };

    ghost invariant = { λ p. p.count ≤ packet_bytes };
}

/// Writes bytes behind the first `at` bytes of a buffer.
fn put_behind(buffer: &mut [u8], at: usize, bytes: &[u8])
    requires { at + length bytes.now ≤ length buffer.old }
    ensures { take (at + length bytes.now) buffer.new ≡ take at buffer.old ++ bytes.now }
{
    let (_front, behind) = buffer.split_at_mut(at);
    let (middle, _rest) = behind.split_at_mut(bytes.len());
    middle.copy_from_slice(bytes);
}

impl PartPacket {
    /// No byte.
    pub(crate) fn new() -> PartPacket
        ensures { result ≡ [] }
    {
        PartPacket {
            bytes: [0; PACKET_BYTES],
            count: 0,
        }
    }

    /// How many bytes it holds.
    pub(crate) fn len(&self) -> usize
        ensures is { result ≡ length self.now }
        ensures most { result ≤ packet_bytes }
    {
        self.count
    }

    /// Takes as many of these bytes as the packet lacks. Returns their number.
    pub(crate) fn add(&mut self, bytes: &[u8]) -> usize
        ensures few { result ≤ length bytes.now }
        ensures adds { self.new ≡ self.old ++ take result bytes.now }
        ensures stops { (result ≡ length bytes.now) ⊎ (length self.new ≡ packet_bytes) }
        ensures most { length self.new ≤ packet_bytes }
    {
        let n = bytes.len().min(PACKET_BYTES - self.count);
        put_behind(&mut self.bytes, self.count, &bytes[..n]);
        self.count += n;
        n
    }

    /// The packet, if it is whole.
    pub(crate) fn whole(&self) -> Option<&[u8; PACKET_BYTES]>
        ensures whole { IsSome result ↔ (length self.now ≡ packet_bytes) }
        ensures is { IfSome result (λ packet. packet.now ≡ self.now) }
    {
        if self.count < PACKET_BYTES {
            return None;
        }
        Some(&self.bytes)
    }

    /// Drops its bytes.
    pub(crate) fn clear(&mut self)
        ensures { self.new ≡ [] }
    {
        self.count = 0;
    }
}

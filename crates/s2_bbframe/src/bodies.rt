//! The bytes of a run of packets: body, CRC-8, body, CRC-8 and so on.
ghost use Rattle.std.specs.Prelude.{◌≡◌, ◌+◌, ◌*◌, ◌≤◌, ◌∷◌, ◌++◌, List, length, take};
ghost use Rattle.std.specs.List.{flat_map};
ghost use Rattle.s2_bbframe.specs.Limits.{body_bytes, packet_bytes, sync};
ghost use Rattle.s2_bbframe.specs.Joining.{run_of};

use crate::crc::crc8;
use crate::limits::{BODY_BYTES, PACKET_BYTES, SYNC};

/// The packets and the bad bodies in bytes of a run, and the number of bytes of a body that are held after them.
#[derive(Clone, Copy)]
pub(crate) struct Bodies {
    pub(crate) held: usize,
    pub(crate) good: usize,
    pub(crate) bad: usize,
}

// writes the packet of this body after the first `at` bytes of a slice, which are kept
fn put_packet(body: &[u8], at: usize, packets: &mut [u8])
    requires body { length body.now ≡ body_bytes }
    requires room { at + packet_bytes ≤ length packets.old }
    ensures packet { take (at + packet_bytes) packets.new ≡ take at packets.old ++ (sync ∷ body.now) }
    ensures size { length packets.new ≡ length packets.old }
{
    packets[at] = SYNC;
    packets[at + 1..at + PACKET_BYTES].copy_from_slice(body);
}

// continues a run, with the first `start` bytes of `body` held, and writes its packets at the front of `packets`
pub(crate) fn read_bodies(body: &mut [u8], start: usize, bytes: &[u8], packets: &mut [u8]) -> Bodies
    requires body { length body.old ≡ body_bytes }
    requires start { start ≤ body_bytes }
    requires room { start + length bytes.now ≤ length packets.old }
    ensures held { (result.held ≤ body_bytes) × (take result.held body.new ≡ (run_of (take start body.old) bytes.now).body) }
    ensures good { result.good ≡ length (run_of (take start body.old) bytes.now).good }
    ensures bad { result.bad ≡ (run_of (take start body.old) bytes.now).bad }
    ensures most { packet_bytes * (result.good + result.bad) ≤ start + length bytes.now }
    ensures packets { take (packet_bytes * result.good) packets.new ≡ flat_map (λ packet. packet) (run_of (take start body.old) bytes.now).good }
    ensures size { length packets.new ≡ length packets.old }
{
    let mut held = start;
    let mut good = 0;
    let mut bad = 0;
    for byte in bytes {
        if held < BODY_BYTES {
            body[held] = *byte;
            held += 1;
        } else {
            held = 0;
            if *byte == crc8(body) {
                put_packet(body, PACKET_BYTES * good, packets);
                good += 1;
            } else {
                bad += 1;
            }
        }
    }
    Bodies { held, good, bad }
}

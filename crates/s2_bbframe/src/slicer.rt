//! The data fields of a stream of packets (EN 302 307-1, 5.1.5).
ghost use Rattle.std.specs.Prelude.{◌≡◌, ◌<◌, ◌≤◌, ◌+◌, ◌↔◌, ℕ, List, [], ◌∷◌, ◌++◌, false, true, length, take, drop, slice_index, IfOk, OnOk, OnErr, IsOk, IsSome, IfSome, IfNone, IsTrue, vec_capacity};
ghost use Rattle.s2_mode.specs.Mode.{IsMode};
ghost use Rattle.s2_bbframe.specs.Limits.{packet_bytes, sync};
ghost use Rattle.s2_bbframe.specs.DataStream.{closed_body, header_at, next_field, after_packet, after_field, starting, field_bytes, IsReady, Sliced, TakesField};

use crate::crc::crc8;
use crate::header::Header;
use crate::limits::{PACKET_BYTES, SYNC};
use s2_mode::Mode;
use std::alloc::{AllocError, Global};
use std::marker::Model;
use thiserror::Error;

/// A packet does not begin with [`SYNC`].
#[derive(Clone, Copy, Debug, PartialEq, Eq, Error)]
#[error("no sync")]
pub struct NoSync;

/// Cuts the data stream of packets into fields. It holds less than a field and one packet.
///
/// The stream is the byte 00, then each packet's body and its CRC-8, in
/// the next packet's sync place. While packets still come a full field can be taken as soon as all
/// its bits are there; after [`Slicer::close`] so can what remains.
pub struct Slicer {
    waiting: Vec<u8>,
    size: usize,
    phase: usize,
    begun: bool,
    closed: bool,
}

impl Drop for Slicer {
    fn drop(self) {
        let Slicer {
            waiting: _,
            size: _,
            phase: _,
            begun: _,
            closed: _,
        } = self;
    }
}

impl Model for Slicer {
    ghost use Rattle.std.specs.Prelude.{◌<◌, ◌≤◌, ◌+◌, length, vec_capacity};
    ghost use Rattle.s2_bbframe.specs.Limits.{packet_bytes};
    ghost use Rattle.s2_bbframe.specs.DataStream.{Slicing, EndsAtPlace};

    ghost Value = { Slicing };

    ghost view = { λ s.
        record { size = s.size; begun = s.begun; phase = s.phase; waiting = s.waiting.items; closed = s.closed } };

    ghost invariant = { λ s. (s.size + packet_bytes ≤ vec_capacity s.waiting) × (s.phase < packet_bytes)
        × (s.size < 8192) × (packet_bytes ≤ s.size) × EndsAtPlace s.begun s.phase (length s.waiting.items) };
}

/// The bytes of a full data field of this mode: Kbch less the 80 bits of a header.
pub fn field_bytes(mode: Mode) -> usize
    ensures is { result ≡ field_bytes mode }
    ensures range { (packet_bytes < result) × (result < 8192) }
{
    (mode.kbch() - 80) / 8
}

// adds a packet's body and its CRC-8
fn close_body(waiting: &mut Vec<u8>, packet: &[u8; PACKET_BYTES])
    requires { length waiting.old.items + packet_bytes ≤ vec_capacity waiting.old }
    ensures bytes { waiting.new.items ≡ waiting.old.items ++ closed_body packet.now }
    ensures capacity { vec_capacity waiting.old ≤ vec_capacity waiting.new }
{
    let body = &packet[1..];
    waiting.extend_from_slice(body).unwrap();
    waiting.push(crc8(body)).unwrap();
}

impl Slicer {
    ghost use Rattle.s2_mode.specs.Mode.{Mode as ModeValue};
    ghost use Rattle.s2_bbframe.specs.Headers.{has_valid_lengths};

    /// A slicer of fields of Kbch - 80 bits, with room for all that it will hold. Fails only if
    /// memory is refused.
    pub fn new(alloc: Global, mode: Mode) -> Result<Slicer, AllocError>
        ensures begins { IfOk result (λ s. s ≡ starting (field_bytes mode)) }
        ensures stream { IfOk result (Sliced [] []) }
    {
        let size = field_bytes(mode);
        Ok(Slicer {
            waiting: Vec::with_capacity(alloc, size + PACKET_BYTES)?,
            size,
            phase: 0,
            begun: false,
            closed: false,
        })
    }

    /// The bytes of a full field.
    pub fn size(&self) -> usize
        ensures { result ≡ self.now.size }
    {
        self.size
    }

    /// Whether a field can be taken.
    pub fn ready(&self) -> bool
        ensures { IsTrue result ↔ IsReady self.now }
    {
        if self.closed {
            !self.waiting.is_empty()
        } else {
            self.size <= self.waiting.len()
        }
    }

    /// Accepts a packet. A refused one changes nothing.
    pub fn put(&mut self, packet: &[u8; PACKET_BYTES]) -> Result<(), NoSync>
        requires not_ready { length self.old.waiting < self.old.size }
        requires not_closed { self.old.closed ≡ false }
        ensures accepts { IsOk result ↔ (slice_index packet.now 0 ≡ sync) }
        ensures packet { OnOk result (self.new ≡ after_packet packet.now self.old) }
        ensures stream { OnOk result ((packets fields : List (List ℕ)) → Sliced packets fields self.old
            → Sliced (packets ++ packet.now ∷ []) fields self.new) }
        ensures refused { OnErr result (self.new ≡ self.old) }
    {
        if packet[0] != SYNC {
            return Err(NoSync);
        }
        if !self.begun {
            self.waiting.push(0).unwrap();
            self.begun = true;
        }
        close_body(&mut self.waiting, packet);
        Ok(())
    }

    /// Ends the stream: no packet follows.
    pub fn close(&mut self)
        ensures { self.new ≡ record self.old { closed = true } }
    {
        self.closed = true;
    }

    /// Begins a new stream, as a new slicer does.
    pub fn restart(&mut self)
        ensures begins { self.new ≡ starting self.old.size }
        ensures stream { Sliced [] [] self.new }
    {
        self.waiting.clear();
        self.phase = 0;
        self.begun = false;
        self.closed = false;
    }

    /// Takes the next field into the first `dfl / 8` bytes of `field`, which has [`Slicer::size`] bytes; the others are
    /// unchanged. Returns `None` if no field can be taken. [`Header::read`] accepts the lengths of each header: every
    /// field has a place for a CRC-8.
    pub fn take(&mut self, roll_off: u8, field: &mut [u8]) -> Option<Header>
        requires { length field.old ≡ self.old.size }
        ensures ready { IsSome result ↔ IsReady self.old }
        ensures header { IfSome result (λ h. h ≡ header_at roll_off self.old.phase (next_field self.old)) }
        ensures lengths { IfSome result (λ h. (m : ModeValue) → self.old.size ≡ field_bytes m
            → has_valid_lengths m h ≡ true) }
        ensures field { IfSome result
            (λ _. field.new ≡ next_field self.old ++ drop (length (next_field self.old)) field.old) }
        ensures takes { IfSome result (λ _. self.new ≡ after_field self.old) }
        ensures stream { IfSome result (TakesField roll_off self.old self.new) }
        ensures none { IfNone result (self.new ≡ self.old) }
        ensures untouched { IfNone result (field.new ≡ field.old) }
    {
        if !self.ready() {
            return None;
        }
        let n = self.size.min(self.waiting.len());
        field[..n].copy_from_slice(&self.waiting[..n]);
        let header = Header {
            roll_off,
            second: 0,
            dfl: 8 * n as u16,
            syncd: 8 * ((PACKET_BYTES - self.phase % PACKET_BYTES) % PACKET_BYTES) as u16,
        };
        let left = self.waiting.len() - n;
        self.waiting.copy_within(n.., 0);
        self.waiting.truncate(left);
        self.phase = (self.phase + n) % PACKET_BYTES;
        Some(header)
    }
}

//! The way of a stream's bytes into data fields (EN 302 307-1, 5.1).
ghost use Rattle.std.specs.Prelude.{◌≡◌, ◌+◌, ◌<◌, ◌≤◌, ◌/◌, ◌↔◌, [], false, length, take, IfOk, IfSome, IfNone, IsSome, IsTrue};
ghost use Rattle.s2_bbframe.specs.Limits.{packet_bytes};
ghost use Rattle.s2_bbframe.specs.DataStream.{field_bytes, next_field, IsReady};
ghost use Rattle.s2_send.specs.Hints.{size_told};
ghost use Rattle.s2_send.specs.Limits.{max_packets};
ghost use Rattle.s2_send.specs.Sender.{Closes, GivesField, PutsInto, Refuses, SameStream, StopsThere, TakesSome, at_first, without_field};

use crate::outcome::{Counts, PacketSize, SendFault};
use crate::part::PartPacket;
use s2_bbframe::{Header, PACKET_BYTES, Slicer};
use s2_mode::Mode;
use std::alloc::{AllocError, Global};
use std::marker::Model;

/// The most packets that one stream accepts, unless a lower limit is set.
pub const MAX_PACKETS: u64 = 1 << 62;

/// Cuts the bytes of a stream into packets, and these into data fields. Its value is the stream.
pub(crate) struct Intake {
    slicer: Slicer,
    part: PartPacket,
    counts: Counts,
    limit: u64,
    closed: bool,
}

impl Drop for Intake {
    fn drop(self) {
        let Intake {
            slicer: _,
            part: _,
            counts: _,
            limit: _,
            closed: _,
        } = self;
    }
}

impl Model for Intake {
    ghost use Rattle.std.specs.Prelude.{◌≡◌};
    ghost use Rattle.s2_send.specs.Sender.{Stream, IsStream};

    ghost Value = { Stream };

    ghost view = { λ i. record {
      slicing = i.slicer;
      held = i.part;
      packets = i.counts.packets;
      fields = i.counts.frames;
      limit = i.limit;
    } };

    ghost invariant = { λ i. IsStream (record {
      slicing = i.slicer;
      held = i.part;
      packets = i.counts.packets;
      fields = i.counts.frames;
      limit = i.limit;
    }) × (i.slicer.closed ≡ i.closed) };
}

/// The fault of a packet without a sync, after the first `packets`.
fn no_sync(packets: u64, packet: &[u8; PACKET_BYTES]) -> SendFault
    requires { packets < max_packets }
    ensures { result ≡ SendFault.NoSync (packets + 1) (size_told (packets + 1) packet.now) }
{
    SendFault::NoSync {
        packet: packets + 1,
        size: PacketSize::told(packets + 1, packet),
    }
}

impl Intake {
    /// The intake of a mode's data fields, before its stream begins. `AllocError` only if it is out of memory.
    pub(crate) fn new(alloc: Global, mode: Mode) -> Result<Intake, AllocError>
        requires { packet_bytes < field_bytes mode }
        ensures { IfOk result (λ i. i ≡ at_first (field_bytes mode) max_packets) }
    {
        Ok(Intake {
            slicer: Slicer::new(alloc, mode)?,
            part: PartPacket::new(),
            counts: Counts {
                packets: 0,
                frames: 0,
            },
            limit: MAX_PACKETS,
            closed: false,
        })
    }

    /// Begins a new stream.
    pub(crate) fn restart(&mut self)
        ensures begins { self.new ≡ at_first self.old.slicing.size self.old.limit }
        ensures stops { StopsThere self.new }
    {
        self.slicer.restart();
        self.part.clear();
        self.counts = Counts {
            packets: 0,
            frames: 0,
        };
        self.closed = false;
    }

    /// Sets the most packets that are accepted.
    pub(crate) fn limit(&mut self, packets: u64)
        requires { (self.old.packets < packets) × (packets ≤ max_packets) }
        ensures { self.new ≡ record self.old { limit = packets } }
    {
        self.limit = packets;
    }

    /// The most packets that are accepted.
    pub(crate) fn most(&self) -> u64
        ensures { result ≡ self.now.limit }
    {
        self.limit
    }

    /// How many packets were accepted, and how many data fields were taken.
    pub(crate) fn counts(&self) -> Counts
        ensures is { result ≡ record { packets = self.now.packets; frames = self.now.fields } }
        ensures most { (result.packets ≤ max_packets) × (result.frames ≤ result.packets) }
    {
        self.counts
    }

    /// Whether the stream has ended.
    pub(crate) fn is_closed(&self) -> bool
        ensures { result ≡ self.now.slicing.closed }
    {
        self.closed
    }

    /// Whether a data field can be taken.
    pub(crate) fn is_ready(&self) -> bool
        ensures ready { IsTrue result ↔ IsReady self.now.slicing }
        ensures stops { StopsThere self.now }
    {
        self.slicer.ready()
    }

    /// Takes bytes up to the end of a packet.
    fn put_some(&mut self, bytes: &[u8]) -> Result<usize, SendFault>
        requires some { 0 < length bytes.now }
        requires open { self.old.slicing.closed ≡ false }
        requires not_ready { IsReady self.old.slicing → ⊥ }
        ensures takes { TakesSome self.old self.new bytes.now result }
        ensures same { SameStream self.old self.new }
        ensures stops { StopsThere self.new }
    {
        if self.counts.packets == self.limit {
            return Err(SendFault::Read);
        }
        let n = self.part.add(bytes);
        let Some(packet) = self.part.whole() else {
            return Ok(n);
        };
        let Ok(()) = self.slicer.put(packet) else {
            return Err(no_sync(self.counts.packets, packet));
        };
        self.counts.packets += 1;
        self.part.clear();
        Ok(n)
    }

    /// Takes bytes until a data field is complete. Returns how many.
    pub(crate) fn put(&mut self, bytes: &[u8]) -> Result<usize, SendFault>
        requires open { self.old.slicing.closed ≡ false }
        ensures puts { PutsInto self.old self.new bytes.now result }
        ensures same { SameStream self.old self.new }
        ensures stops { StopsThere self.new }
    {
        let mut rest = bytes;
        'put: while !self.is_ready() && !rest.is_empty() {
            let n = self.put_some(rest)?;
            rest = &rest[n..];
        }
        Ok(bytes.len() - rest.len())
    }

    /// Why the stream cannot end here.
    fn refusal(&self) -> Option<SendFault>
        ensures refuses { IfSome result (Refuses self.now) }
        ensures whole { IfNone result (self.now.held ≡ []) }
        ensures within { IfNone result (self.now.packets < self.now.limit) }
    {
        if self.counts.packets == self.limit {
            return Some(SendFault::Read);
        }
        if let Some(packet) = self.part.whole() {
            return Some(no_sync(self.counts.packets, packet));
        }
        if self.part.len() > 0 {
            return Some(SendFault::NotWholePacket);
        }
        None
    }

    /// Ends the stream.
    pub(crate) fn close(&mut self) -> Result<(), SendFault>
        ensures { Closes self.old self.new result }
    {
        if let Some(fault) = self.refusal() {
            return Err(fault);
        }
        self.slicer.close();
        self.closed = true;
        Ok(())
    }

    /// Takes the next data field into the first `dfl / 8` bytes of `field`, if one is complete.
    pub(crate) fn take(&mut self, roll_off: u8, field: &mut [u8]) -> Option<Header>
        requires { length field.old ≡ self.old.slicing.size }
        ensures ready { IsSome result ↔ IsReady self.old.slicing }
        ensures takes { IfSome result (λ header. self.new ≡ without_field self.old) }
        ensures gives { IfSome result (GivesField roll_off self.old self.new) }
        ensures field { IfSome result (λ header. (header.roll_off ≡ roll_off) × (header.dfl / 8 ≤ self.old.slicing.size)
            × (take (header.dfl / 8) field.new ≡ next_field self.old.slicing)) }
        ensures none { IfNone result (self.new ≡ self.old) }
        ensures size { length field.new ≡ length field.old }
    {
        let header = self.slicer.take(roll_off, field)?;
        self.counts.frames += 1;
        Some(header)
    }
}

//! Passes each step to the joiner, and holds the packets that it completes.
ghost use Rattle.std.specs.Prelude.{◌≡◌, ◌*◌, ◌≤◌, None, IfOk, IfSome, length, take};
ghost use Rattle.std.specs.List.{flat_map};
ghost use Rattle.s2_bbframe.specs.Joining.{still};
ghost use Rattle.s2_bbframe.specs.Limits.{max_field_bytes, packet_bytes, packets_room};
ghost use Rattle.s2_receive.specs.Decider.{delivered_of, HasPlace};
ghost use Rattle.s2_receive.specs.Receiving.{held_before, incomplete_before, joined_after, counts_after};
ghost use Rattle.s2_receive.specs.Output.{IsFew, filled_by, counts_by, joined_by};

use crate::gap::Gap;
use crate::window::Next;
use s2_bbframe::{Header, Joiner, PACKET_BYTES, PACKETS_ROOM};
use std::alloc::{AllocError, Global};
use std::marker::Model;

/// The counts of a step: 1 or 0 delivered messages, packets, bodies with a wrong CRC-8, and incomplete bodies.
#[derive(Clone, Copy)]
pub(crate) struct StepCounts {
    pub(crate) delivered: u64,
    pub(crate) good: u64,
    pub(crate) bad: u64,
    pub(crate) incomplete: u64,
}

impl StepCounts {
    /// Nothing but this number of incomplete bodies.
    fn incomplete(bodies: usize) -> StepCounts
        ensures { result ≡ record { delivered = 0; good = 0; bad = 0; incomplete = bodies } }
    {
        StepCounts {
            delivered: 0,
            good: 0,
            bad: 0,
            incomplete: bodies as u64,
        }
    }
}

/// Reports a gap to the joiner, if symbols were skipped. Returns the number of bodies that it drops.
fn gap_before(joiner: &mut Joiner, skipped: Gap) -> usize
    ensures held { joiner.new ≡ held_before joiner.old skipped }
    ensures incomplete { result ≡ incomplete_before joiner.old skipped }
    ensures few { result ≤ 1 }
{
    if skipped.is_gap() { joiner.gap() } else { 0 }
}

/// Joins the data field of a frame on, if it has a header, and puts the packets that it completes at the front
/// of a buffer. The joiner gets a gap before it if symbols were skipped, and in its place if nothing was
/// delivered.
fn join_frame(
    joiner: &mut Joiner,
    header: Option<Header>,
    field: &[u8],
    skipped: Gap,
    packets: &mut [u8],
) -> StepCounts
    requires place { IfSome header (HasPlace field.now) }
    requires room { packets_room max_field_bytes ≤ length packets.old }
    ensures held { joiner.new ≡ (joined_after joiner.old skipped (delivered_of header field.now)).held }
    ensures packets { take (packet_bytes * result.good) packets.new ≡ flat_map (λ packet. packet) (joined_after joiner.old skipped (delivered_of header field.now)).good }
    ensures counts { result ≡ counts_after joiner.old skipped (delivered_of header field.now) }
    ensures few { IsFew result }
    ensures most { packet_bytes * result.good ≤ length packets.old }
    ensures size { length packets.new ≡ length packets.old }
{
    let before = gap_before(joiner, skipped);
    let Some(header) = header else {
        return StepCounts::incomplete(before + joiner.gap());
    };
    let fed = joiner.feed(&header, field, packets);
    StepCounts {
        delivered: 1,
        good: fed.good as u64,
        bad: fed.bad as u64,
        incomplete: (before + fed.incomplete) as u64,
    }
}

/// A joiner, and the packets that the last step completed.
pub(crate) struct PacketBuffer {
    joiner: Joiner,
    buffer: Vec<u8>,
    filled: usize,
}

impl Drop for PacketBuffer {
    fn drop(self) {
        let PacketBuffer {
            joiner: _,
            buffer: _,
            filled: _,
        } = self;
    }
}

impl Model for PacketBuffer {
    ghost use Rattle.std.specs.Prelude.{take};
    ghost use Rattle.s2_receive.specs.Output.{Filled, HasRoom};

    ghost Value = { Filled };

    ghost view = { λ f. record { held = f.joiner; packets = take f.filled f.buffer.items } };

    ghost invariant = { λ f. HasRoom f.filled f.buffer.items };
}

impl PacketBuffer {
    /// A joiner that is lost, with room for the packets of a frame. `AllocError` only if an allocation was
    /// refused.
    pub(crate) fn new(alloc: Global) -> Result<PacketBuffer, AllocError>
        ensures { IfOk result (λ f. f ≡ filled_by (still None)) }
    {
        let buffer = vec![in alloc; 0u8; PACKETS_ROOM]?;
        Ok(PacketBuffer {
            joiner: Joiner::new(),
            buffer,
            filled: 0,
        })
    }

    /// The packets that the last step completed.
    pub(crate) fn packets(&self) -> &[u8]
        ensures { result.now ≡ self.now.packets }
    {
        &self.buffer[..self.filled]
    }

    /// Passes a step to the joiner. If a frame was delivered with this header, its data field is joined on. If
    /// nothing was delivered, or the frame is cut, the joiner gets a gap. At the end it gets nothing. Returns the
    /// counts of the step.
    pub(crate) fn give(&mut self, next: Next, header: Option<Header>, field: &[u8]) -> StepCounts
        requires place { IfSome header (HasPlace field.now) }
        ensures filled { self.new ≡ filled_by (joined_by self.old.held next (delivered_of header field.now)) }
        ensures counts { result ≡ counts_by self.old.held next (delivered_of header field.now) }
        ensures few { IsFew result }
    {
        let counts = match next {
            Next::Frame { at: _, skipped } => {
                join_frame(&mut self.joiner, header, field, skipped, &mut self.buffer)
            }
            Next::Cut { .. } => StepCounts::incomplete(self.joiner.gap()),
            Next::End { .. } => StepCounts::incomplete(0),
        };
        self.filled = PACKET_BYTES * counts.good as usize;
        counts
    }
}

//! The transmitter without input and output: bytes come, and frames are made.
ghost use Rattle.std.specs.Prelude.{◌≡◌, ◌<◌, ◌≤◌, ◌↔◌, false, true, IfOk, IsTrue};
ghost use Rattle.s2_bbframe.specs.DataStream.{field_bytes, IsReady};
ghost use Rattle.s2_send.specs.Limits.{max_packets};
ghost use Rattle.s2_send.specs.Sending.{is_due};
ghost use Rattle.s2_send.specs.Sender.{AddsBytes, Closes, HasPast, MakesFrame, PutsBytes, StopsThere, at_first, no_past, transmitter_of};
ghost use Rattle.s2_send.specs.Transmitter.{new_transmitter};

use crate::framer::Framer;
use crate::intake::Intake;
use crate::outcome::{Counts, SendFault};
use s2_bbframe::field_bytes;
use s2_bits::Bits;
use s2_link::Link;
use std::alloc::{AllocError, Global};
use std::marker::Model;

/// Makes frames of the bytes that it is given (EN 302 307-1, 5.1 to 5.5).
///
/// In contracts, a sender is its link, the number of frames between dummy frames, its stream, and the codeword and the
/// unit of the frame that it made last.
pub struct Sender<'a> {
    framer: Framer<'a>,
    intake: Intake,
    field: Vec<u8>,
    dummy_every: u16,
    is_dummy_due: bool,
}

impl<'a> Drop for Sender<'a> {
    fn drop(self) {
        let Sender {
            framer: _,
            intake: _,
            field: _,
            dummy_every: _,
            is_dummy_due: _,
        } = self;
    }
}

impl<'a> Model for Sender<'a> {
    ghost use Rattle.std.specs.Prelude.{◌≡◌, ◌++◌, length};
    ghost use Rattle.s2_bbframe.specs.DataStream.{field_bytes};
    ghost use Rattle.s2_send.specs.Frames.{sent_behind};
    ghost use Rattle.s2_send.specs.Sender.{Sender as SenderValue};

    ghost Value = { SenderValue };

    ghost view = { λ s. record {
      link = s.framer.link;
      dummy_every = s.dummy_every;
      stream = s.intake;
      codeword = s.framer.codeword;
      unit = s.framer.bytes ++ sent_behind s.framer.link s.is_dummy_due;
    } };

    ghost invariant = { λ s. (s.intake.slicing.size ≡ field_bytes s.framer.link.setup.mode)
        × (length s.field.items ≡ field_bytes s.framer.link.setup.mode) };
}

/// Whether a dummy frame is due after a stream's frame of this number, counted from 1.
fn is_due(dummy_every: u16, number: u64) -> bool
    ensures { result ≡ is_due dummy_every number }
{
    dummy_every != 0 && number % u64::from(dummy_every) == 0
}

impl<'a> Sender<'a> {
    /// A sender on a link, with all the memory that it needs. `AllocError` only if it is out of memory.
    pub fn on_link(alloc: Global, link: &Link<'a>) -> Result<Sender<'a>, AllocError>
        ensures is { IfOk result (λ s. transmitter_of s ≡ new_transmitter link.now) }
        ensures begins { IfOk result (λ s. s.stream ≡ at_first (field_bytes link.now.setup.mode) max_packets) }
        ensures past { IfOk result (HasPast no_past) }
    {
        let field = vec![in alloc; 0u8; field_bytes(link.mode())]?;
        let intake = Intake::new(alloc, link.mode())?;
        let framer = Framer::new(alloc, link)?;
        Ok(Sender {
            framer,
            intake,
            field,
            dummy_every: 0,
            is_dummy_due: false,
        })
    }

    /// Sets the most packets of a stream, up to [`crate::MAX_PACKETS`]. The stream must not have as many yet.
    pub fn limit(&mut self, packets: u64)
        requires { (self.old.stream.packets < packets) × (packets ≤ max_packets) }
        ensures { self.new ≡ record self.old { stream = record self.old.stream { limit = packets } } }
    {
        self.intake.limit(packets);
    }

    /// Sets after how many frames a dummy frame is due, 0 for never. It counts from the stream's first frame.
    pub fn dummy_every(&mut self, frames: u16)
        ensures { self.new ≡ record self.old { dummy_every = frames } }
    {
        self.dummy_every = frames;
    }

    /// Begins a new stream.
    pub fn restart(&mut self)
        ensures is { self.new ≡ record self.old { stream = at_first (field_bytes self.old.link.setup.mode) self.old.stream.limit } }
        ensures past { HasPast no_past self.new }
        ensures stops { StopsThere self.new.stream }
    {
        self.intake.restart();
    }

    /// The most packets of a stream.
    pub(crate) fn most(&self) -> u64
        ensures { result ≡ self.now.stream.limit }
    {
        self.intake.most()
    }

    /// How many packets were accepted since the stream began, and how many frames were made.
    pub fn counts(&self) -> Counts
        ensures is { result ≡ record { packets = self.now.stream.packets; frames = self.now.stream.fields } }
    {
        self.intake.counts()
    }

    /// Whether the stream has ended.
    pub fn is_closed(&self) -> bool
        ensures { result ≡ self.now.stream.slicing.closed }
    {
        self.intake.is_closed()
    }

    /// Whether a frame can be taken.
    pub fn is_ready(&self) -> bool
        ensures ready { IsTrue result ↔ IsReady self.now.stream.slicing }
        ensures stops { StopsThere self.now.stream }
    {
        self.intake.is_ready()
    }

    /// Takes bytes of the stream, in any pieces, until a frame can be taken. Returns how many. If they are fewer than
    /// were given, a frame is to be taken first, with [`Sender::take`]. Packets have 188 bytes. It takes no memory.
    ///
    /// `NoSync` reports a packet that does not begin with 47 hexadecimal, when the whole of it has come. `Read` reports
    /// that the limit of packets is reached, and a byte more was given. The sender stays at this place of the stream.
    /// Each further byte is refused in the same way.
    pub fn put(&mut self, bytes: &[u8]) -> Result<usize, SendFault>
        requires open { self.old.stream.slicing.closed ≡ false }
        ensures puts { PutsBytes self.old self.new bytes.now result }
        ensures past { AddsBytes self.old self.new bytes.now result }
        ensures stops { StopsThere self.new.stream }
    {
        self.intake.put(bytes)
    }

    /// Ends the stream. Then the last data field can be taken, if there is one. `NotWholePacket`, `NoSync` and `Read`
    /// report a packet that is cut, a packet that was refused, and that the limit of packets is reached. Then nothing
    /// changes. It takes no memory.
    pub fn close(&mut self) -> Result<(), SendFault>
        ensures closes { Closes self.old.stream self.new.stream result }
        ensures same { self.new ≡ record self.old { stream = self.new.stream } }
    {
        self.intake.close()
    }

    /// Makes the next frame, if its data field is complete: a full one, or the last one after the stream has ended.
    /// Returns whether it did. It takes no memory.
    pub fn take(&mut self) -> bool
        ensures made { result ≡ true → MakesFrame self.old self.new }
        ensures none { result ≡ false → (IsReady self.old.stream.slicing → ⊥) × (self.new ≡ self.old) }
    {
        let Some(header) = self
            .intake
            .take(self.framer.roll_off().get(), &mut self.field)
        else {
            return false;
        };
        let bytes = usize::from(header.dfl / 8);
        self.framer.make(&header, &self.field[..bytes]);
        self.is_dummy_due = is_due(self.dummy_every, self.intake.counts().frames);
        true
    }

    /// The codeword of the frame that was made last.
    pub fn codeword(&self) -> &Bits
        ensures { result.now ≡ self.now.codeword }
    {
        self.framer.codeword()
    }

    /// The bytes of the symbols of the frame that was made last, and of the dummy frame after it if one is due.
    pub fn symbols(&self) -> &[u8]
        ensures { result.now ≡ self.now.unit }
    {
        self.framer.unit(self.is_dummy_due)
    }
}

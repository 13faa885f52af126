//! The BBFRAMEs of frames (EN 302 307-1, 5.1 and 5.2).
ghost use Rattle.std.specs.Prelude.{◌≡◌, [], true, if◌then◌else◌, IfOk, OnOk, OnErr, length};
ghost use Rattle.std.specs.Io.KnownBytes.{Appends};
ghost use Rattle.s2_mode.specs.Counts.{CanCount, CountsFault};
ghost use Rattle.s2_mode.specs.Mode.{kbch_of};
ghost use Rattle.s2_mode.specs.Pieces.{AppendsPart};
ghost use Rattle.s2_certfile.specs.Field.{bytes_of_bits};
ghost use Rattle.s2_scramble.specs.Baseband.{scrambled};
ghost use Rattle.s2_records.specs.Records.{GainsBbframe, GainsBbframePart, has_bbframe};
ghost use Rattle.s2_records.specs.Sent.{GainsOf, GainsPartOf, sent_bbframe};

use crate::words::write_bits;
use s2_bits::Bits;
use s2_mode::{CountedWrite, Mode, WriteFault, write_full};
use s2_receive::{Frame, FrameStart, Sink};
use s2_scramble::bb_xor_in_place;
use s2_send::SendSink;
use std::alloc::{AllocError, Global};
use std::marker::Model;

/// Whether a frame was delivered, with a message of its mode.
fn has_bbframe(mode: Mode, frame: &Frame<'_>) -> bool
    ensures is { result ≡ has_bbframe mode frame.now }
    ensures long { result ≡ true → length frame.now.message ≡ kbch_of mode }
{
    frame.decided.header.is_some() && frame.message.len() == mode.kbch()
}

/// Descrambles a message, and writes it.
fn write_message<W: CountedWrite>(
    out: &mut W,
    block: &mut Vec<u8>,
    bits: &mut Bits,
    message: &[bool],
) -> Result<(), WriteFault>
    requires count { CanCount (W.count out.old) }
    requires long { length message.now ≡ length bits.old }
    ensures bytes { OnOk result (Appends (W.contents out.old) (W.contents out.new) (bytes_of_bits (scrambled message.now))) }
    ensures part { OnErr result (AppendsPart (bytes_of_bits (scrambled message.now)) (W.contents out.old) (W.contents out.new)) }
    ensures cause { CountsFault (W.count out.old) (W.count out.new) result }
    ensures size { length bits.new ≡ length bits.old }
{
    bits.truths_mut().copy_from_slice(message);
    bb_xor_in_place(bits);
    write_bits(out, block, bits)
}

/// Writes zeros instead of skipped symbols, if there were any.
fn write_gap<W: CountedWrite>(out: &mut W, zeros: &[u8], after_gap: bool) -> Result<(), WriteFault>
    requires { CanCount (W.count out.old) }
    ensures bytes { OnOk result (Appends (W.contents out.old) (W.contents out.new) (if after_gap then zeros.now else [])) }
    ensures part { OnErr result (AppendsPart (if after_gap then zeros.now else []) (W.contents out.old) (W.contents out.new)) }
    ensures cause { CountsFault (W.count out.old) (W.count out.new) result }
{
    if after_gap {
        write_full(out, zeros)
    } else {
        Ok(())
    }
}

/// Writes the message of a delivered frame, and zeros for a lost one.
fn write_frame<W: CountedWrite>(
    out: &mut W,
    block: &mut Vec<u8>,
    bits: &mut Bits,
    zeros: &[u8],
    delivered: bool,
    message: &[bool],
) -> Result<(), WriteFault>
    requires count { CanCount (W.count out.old) }
    requires long { delivered ≡ true → length message.now ≡ length bits.old }
    ensures bytes { OnOk result (Appends (W.contents out.old) (W.contents out.new)
        (if delivered then bytes_of_bits (scrambled message.now) else zeros.now)) }
    ensures part { OnErr result (AppendsPart (if delivered then bytes_of_bits (scrambled message.now) else zeros.now)
        (W.contents out.old) (W.contents out.new)) }
    ensures cause { CountsFault (W.count out.old) (W.count out.new) result }
    ensures size { length bits.new ≡ length bits.old }
{
    if delivered {
        write_message(out, block, bits, message)
    } else {
        write_full(out, zeros)
    }
}

/// A sink of BBFRAMEs. It writes the message of each delivered frame, descrambled: header, data field and padding, in
/// Kbch / 8 bytes. Instead of a frame that was not delivered it writes Kbch / 8 zeros. It also does so before a frame
/// that comes after skipped symbols. As a sink of a transmitter it writes the message of each codeword: its first Kbch
/// bits, descrambled. In contracts, it is its mode and its writer.
pub struct Bbframes<W> {
    mode: Mode,
    to: W,
    bits: Bits,
    block: Vec<u8>,
    zeros: Vec<u8>,
}

impl<W: Drop> Drop for Bbframes<W> {
    fn drop(self) {
        let Bbframes {
            mode: _,
            to: _,
            bits: _,
            block: _,
            zeros: _,
        } = self;
    }
}

impl<W> Model for Bbframes<W> {
    ghost use Rattle.std.specs.Prelude.{◌≡◌, length};
    ghost use Rattle.s2_mode.specs.Mode.{kbch_of};
    ghost use Rattle.s2_records.specs.Records.{Framing, no_bbframe};

    ghost Value = { Framing W };

    ghost view = { λ b. record { mode = b.mode; to = b.to } };

    ghost invariant = { λ b. (length b.bits ≡ kbch_of b.mode) × (b.zeros.items ≡ no_bbframe b.mode) };
}

impl<W: CountedWrite> Bbframes<W> {
    /// It writes to this writer, each BBFRAME of this mode with one write. `AllocError` only if an allocation was
    /// refused.
    pub fn new(alloc: Global, mode: Mode, to: W) -> Result<Bbframes<W>, AllocError>
    where
        W: Drop,
        ensures { IfOk result (λ b. b ≡ record { mode = mode; to = to }) }
    {
        let bits = Bits::zeroed(alloc, mode.kbch())?;
        let block = Vec::with_capacity(alloc, mode.kbch() / 8)?;
        let zeros = vec![in alloc; 0u8; mode.kbch() / 8]?;
        Ok(Bbframes {
            mode,
            to,
            bits,
            block,
            zeros,
        })
    }

    /// Its writer.
    pub fn into_inner(self) -> W
        ensures { result ≡ self.to }
    {
        let Bbframes {
            mode: _,
            to,
            bits: _,
            block: _,
            zeros: _,
        } = self;
        to
    }
}

impl<W: CountedWrite> Sink for Bbframes<W> {
    ghost takes = { GainsBbframe W.contents };

    ghost fails = { GainsBbframePart W.contents };

    ghost count = { λ b. W.count b.to };

    fn take(&mut self, start: FrameStart, frame: &Frame<'_>) -> Result<(), WriteFault> {
        let delivered = has_bbframe(self.mode, frame);
        write_gap(&mut self.to, &self.zeros, start.after_gap)?;
        write_frame(
            &mut self.to,
            &mut self.block,
            &mut self.bits,
            &self.zeros,
            delivered,
            frame.message,
        )
    }
}

impl<W: CountedWrite> SendSink for Bbframes<W> {
    ghost takes = { GainsOf W.contents sent_bbframe };

    ghost fails = { GainsPartOf W.contents sent_bbframe };

    ghost count = { λ b. W.count b.to };

    fn take(&mut self, codeword: &Bits) -> Result<(), WriteFault> {
        let kbch = self.mode.kbch();
        if codeword.len() < kbch {
            return write_full(&mut self.to, &self.zeros);
        }
        write_message(
            &mut self.to,
            &mut self.block,
            &mut self.bits,
            &codeword.truths()[..kbch],
        )
    }
}

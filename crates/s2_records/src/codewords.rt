//! The words of frames: decided, or sent.
ghost use Rattle.std.specs.Prelude.{◌≡◌, IfOk, OnOk, OnErr};
ghost use Rattle.s2_mode.specs.Counts.{CanCount, CountsFault};
ghost use Rattle.s2_records.specs.Records.{Gains, GainsPart, codeword_bytes};
ghost use Rattle.s2_records.specs.Sent.{GainsWord, GainsWordPart};

use crate::words::write_bits;
use s2_bits::Bits;
use s2_mode::{CountedWrite, Mode, WriteFault};
use s2_receive::{Frame, FrameStart, Sink};
use s2_send::SendSink;
use std::alloc::{AllocError, Global};
use std::marker::Model;

/// A sink of decided words. It writes the decided bits of each frame, before BCH decoding, eight to a byte. As a sink of a
/// transmitter it writes each codeword in the same way. In contracts, it is its writer.
pub struct Codewords<W> {
    to: W,
    block: Vec<u8>,
}

impl<W: Drop> Drop for Codewords<W> {
    fn drop(self) {
        let Codewords { to: _, block: _ } = self;
    }
}

impl<W> Model for Codewords<W> {
    ghost Value = { W };

    ghost view = { λ c. c.to };
}

impl<W: CountedWrite> Codewords<W> {
    /// It writes to this writer, the word of a frame of this mode with one write. `AllocError` only if an allocation
    /// was refused.
    pub fn new(alloc: Global, mode: Mode, to: W) -> Result<Codewords<W>, AllocError>
    where
        W: Drop,
        ensures { IfOk result (λ c. c ≡ to) }
    {
        let block = Vec::with_capacity(alloc, mode.n() / 8)?;
        Ok(Codewords { to, block })
    }

    /// Its writer.
    pub fn into_inner(self) -> W
        ensures { result ≡ self }
    {
        let Codewords { to, block: _ } = self;
        to
    }
}

impl<W: CountedWrite> Sink for Codewords<W> {
    ghost takes = { Gains W.contents codeword_bytes };

    ghost fails = { GainsPart W.contents codeword_bytes };

    ghost count = { W.count };

    fn take(&mut self, _start: FrameStart, frame: &Frame<'_>) -> Result<(), WriteFault> {
        write_bits(&mut self.to, &mut self.block, frame.word)
    }
}

impl<W: CountedWrite> SendSink for Codewords<W> {
    ghost takes = { GainsWord W.contents };

    ghost fails = { GainsWordPart W.contents };

    ghost count = { W.count };

    fn take(&mut self, codeword: &Bits) -> Result<(), WriteFault> {
        write_bits(&mut self.to, &mut self.block, codeword)
    }
}

//! The certificates of frames.
ghost use Rattle.std.specs.Prelude.{◌≡◌, IsOkAnd, OnOk, OnErr};
ghost use Rattle.s2_mode.specs.Counts.{CanCount, CountsFault};
ghost use Rattle.s2_records.specs.Records.{Gains, GainsPart, certificate_record};

use s2_mode::{CountedWrite, Mode, WriteFault};
use s2_receive::{Frame, FrameStart, Sink};
use std::alloc::{AllocError, Global};
use std::marker::Model;

/// A sink of certificates. It writes the file of each frame's certificate, one after another, and nothing for a frame
/// without one. In contracts, it is its writer.
pub struct Certificates<W> {
    to: W,
}

impl<W: Drop> Drop for Certificates<W> {
    fn drop(self) {
        let Certificates { to: _ } = self;
    }
}

impl<W> Model for Certificates<W> {
    ghost Value = { W };

    ghost view = { λ c. c.to };
}

impl<W: CountedWrite> Certificates<W> {
    /// It writes to this writer. It is made like the other sinks, but allocates nothing: certificates are written in
    /// pages of 4096 bytes.
    pub fn new(_alloc: Global, _mode: Mode, to: W) -> Result<Certificates<W>, AllocError>
        ensures { IsOkAnd result (λ c. c ≡ to) }
    {
        Ok(Certificates { to })
    }

    /// Its writer.
    pub fn into_inner(self) -> W
        ensures { result ≡ self }
    {
        let Certificates { to } = self;
        to
    }
}

impl<W: CountedWrite> Sink for Certificates<W> {
    ghost takes = { Gains W.contents certificate_record };

    ghost fails = { GainsPart W.contents certificate_record };

    ghost count = { W.count };

    fn take(&mut self, _start: FrameStart, frame: &Frame<'_>) -> Result<(), WriteFault> {
        match &frame.certificate {
            Some(view) => view.write(&mut self.to),
            None => Ok(()),
        }
    }
}

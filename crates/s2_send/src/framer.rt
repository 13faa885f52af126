//! Makes frames of data fields.
ghost use Rattle.std.specs.Prelude.{◌≡◌, ◌++◌, ◌≤◌, IfOk, length};
ghost use Rattle.s2_bbframe.specs.DataStream.{field_bytes};
ghost use Rattle.s2_link.specs.Limits.{max_roll_off};
ghost use Rattle.s2_send.specs.Frames.{IsCodewordFor, IsFrameOf, frame_bytes, sent_behind};

use crate::coder::Coder;
use crate::modulator::Modulator;
use s2_bbframe::Header;
use s2_bits::Bits;
use s2_link::{Link, RollOff};
use s2_scramble::Gold;
use std::alloc::{AllocError, Global};
use std::marker::Model;

/// Makes the frames of one link. Its value is the link, the last codeword, and the bytes of the last frame.
pub struct Framer<'a> {
    roll_off: RollOff,
    coder: Coder<'a>,
    modulator: Modulator,
}

impl<'a> Drop for Framer<'a> {
    fn drop(self) {
        let Framer {
            roll_off: _,
            coder: _,
            modulator: _,
        } = self;
    }
}

impl<'a> Model for Framer<'a> {
    ghost use Rattle.std.specs.Prelude.{◌≡◌, ◌≤◌};
    ghost use Rattle.s2_link.specs.Limits.{max_roll_off};
    ghost use Rattle.s2_send.specs.Frames.{Framing};

    ghost Value = { Framing };

    ghost view = { λ f. record {
      link = record {
        setup = record { mode = f.modulator.mode; number = f.modulator.number; roll_off = f.roll_off };
        rows = f.coder.rows;
      };
      codeword = f.coder.codeword;
      bytes = f.modulator.bytes;
    } };

    ghost invariant = { λ f. (f.coder.mode ≡ f.modulator.mode) × (f.roll_off ≤ max_roll_off) };
}

impl<'a> Framer<'a> {
    /// The maker of a link's frames. `AllocError` only if it is out of memory.
    pub fn new(alloc: Global, link: &Link<'a>) -> Result<Framer<'a>, AllocError>
        ensures { IfOk result (λ f. f.link ≡ link.now) }
    {
        let gold = Gold::of(alloc, link.number())?;
        let modulator = Modulator::new(alloc, link.mode(), gold)?;
        let coder = Coder::new(alloc, link)?;
        Ok(Framer {
            roll_off: link.roll_off(),
            coder,
            modulator,
        })
    }

    /// The roll-off that is written to headers.
    pub fn roll_off(&self) -> RollOff
        ensures is { result ≡ self.now.link.setup.roll_off }
        ensures most { result ≤ max_roll_off }
    {
        self.roll_off
    }

    /// Makes the frame of a header and its data field. It takes no memory.
    pub fn make(&mut self, header: &Header, field: &[u8])
        requires roll_off { header.now.roll_off ≤ 3 }
        requires size { length field.now ≤ field_bytes self.old.link.setup.mode }
        ensures codeword { IsCodewordFor self.old.link.setup.mode self.old.link.rows header.now field.now self.new.codeword }
        ensures frame { IsFrameOf self.old.link header.now field.now self.new.bytes }
        ensures same { self.new.link ≡ self.old.link }
    {
        self.coder.encode(header, field);
        self.modulator.modulate(self.coder.codeword());
    }

    /// The codeword of the last frame.
    pub fn codeword(&self) -> &Bits
        ensures { result.now ≡ self.now.codeword }
    {
        self.coder.codeword()
    }

    /// The bytes of the last frame.
    pub fn bytes(&self) -> &[u8]
        ensures { result.now ≡ self.now.bytes }
    {
        self.modulator.bytes()
    }

    /// The unit of the last frame: its bytes, and those of a dummy frame if one is due.
    pub fn unit(&self, due: bool) -> &[u8]
        ensures { result.now ≡ self.now.bytes ++ sent_behind self.now.link due }
    {
        self.modulator.unit(due)
    }
}

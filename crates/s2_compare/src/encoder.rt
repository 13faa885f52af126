//! The codewords of BBFRAMEs (EN 302 307-1, 5.2 and 5.3).
ghost use Rattle.std.specs.Prelude.{◌≡◌, ◌/◌, IfOk, length};
ghost use Rattle.s2_mode.specs.Mode.{kbch_of, shape_in};
ghost use Rattle.s2_matrix.specs.Code.{code_of};
ghost use Rattle.s2_compare.specs.Devices.{IsCodewordOfFrame};

use s2_bch::Bch;
use s2_bits::{Bits, bits_into};
use s2_matrix::Matrix;
use s2_mode::Mode;
use s2_scramble::bb_xor_in_place;
use std::alloc::{AllocError, Global};
use std::marker::Model;

/// Encodes BBFRAMEs of one mode, in its own buffers. Its value is the mode.
pub(crate) struct Encoder {
    bch: Bch,
    message: Bits,
    bch_word: Bits,
}

impl Drop for Encoder {
    fn drop(self) {
        let Encoder {
            bch: _,
            message: _,
            bch_word: _,
        } = self;
    }
}

impl Model for Encoder {
    ghost use Rattle.s2_mode.specs.Mode.{Mode as ModeValue};
    ghost use Rattle.s2_compare.specs.Encoders.{FitsMode};

    ghost Value = { ModeValue };

    ghost view = { λ e. e.bch };

    ghost invariant = { λ e. FitsMode e.bch e.message e.bch_word };
}

impl Encoder {
    /// The encoder of a mode. `AllocError` only if memory is refused.
    pub(crate) fn new(alloc: Global, mode: Mode) -> Result<Encoder, AllocError>
        ensures { IfOk result (λ e. e ≡ mode) }
    {
        Ok(Encoder {
            bch: Bch::new(alloc, mode)?,
            message: Bits::zeroed(alloc, mode.kbch())?,
            bch_word: Bits::zeroed(alloc, mode.k())?,
        })
    }

    /// Writes the codeword of a BBFRAME, Kbch / 8 bytes before scrambling.
    pub(crate) fn encode(&mut self, matrix: &Matrix, bytes: &[u8], codeword: &mut Bits)
        requires shape { matrix.now.shape ≡ shape_in self.old }
        requires bytes { length bytes.now ≡ kbch_of self.old / 8 }
        requires codeword { length codeword.old ≡ (code_of matrix.now).bits }
        ensures is { IsCodewordOfFrame self.old matrix.now bytes.now codeword.new }
        ensures same { self.new ≡ self.old }
        ensures size { length codeword.new ≡ length codeword.old }
    {
        bits_into(bytes, self.message.truths_mut());
        bb_xor_in_place(&mut self.message);
        self.bch.encode_into(&self.message, &mut self.bch_word);
        s2_ldpc::encode_into(matrix, &self.bch_word, codeword);
    }
}

//! From a header and its data field to the codeword (EN 302 307-1, 5.2 and 5.3).
ghost use Rattle.std.specs.Prelude.{◌≡◌, ◌≤◌, length, IfOk};
ghost use Rattle.s2_mode.specs.Mode.{n_of};
ghost use Rattle.s2_bbframe.specs.DataStream.{field_bytes};
ghost use Rattle.s2_send.specs.Frames.{IsCodewordFor};

use crate::bits::frame_bits_into;
use s2_bbframe::Header;
use s2_bch::Bch;
use s2_bits::Bits;
use s2_link::Link;
use s2_matrix::Matrix;
use s2_scramble::bb_xor_in_place;
use std::alloc::{AllocError, Global};
use std::marker::Model;

/// Makes the codewords of one link, in its own buffers. Its value is the mode, the address rows and the last
/// codeword.
pub struct Coder<'a> {
    matrix: &'a Matrix,
    bch: Bch,
    message: Bits,
    bch_word: Bits,
    codeword: Bits,
}

impl<'a> Drop for Coder<'a> {
    fn drop(self) {
        let Coder {
            matrix: _,
            bch: _,
            message: _,
            bch_word: _,
            codeword: _,
        } = self;
    }
}

impl<'a> Model for Coder<'a> {
    ghost use Rattle.s2_send.specs.Frames.{Coding, FitsCode};

    ghost Value = { Coding };

    ghost view = { λ c. record { mode = c.bch; rows = c.matrix.now; codeword = c.codeword } };

    ghost invariant = { λ c. FitsCode
        (record { mode = c.bch; rows = c.matrix.now; codeword = c.codeword }) c.message c.bch_word };
}

impl<'a> Coder<'a> {
    /// The coder of a link. Before the first codeword is made, its codeword is all zeros. `AllocError` only if it
    /// is out of memory.
    pub fn new(alloc: Global, link: &Link<'a>) -> Result<Coder<'a>, AllocError>
        ensures mode { IfOk result (λ c. c.mode ≡ link.now.setup.mode) }
        ensures rows { IfOk result (λ c. c.rows ≡ link.now.rows) }
    {
        let mode = link.mode();
        Ok(Coder {
            matrix: link.matrix(),
            bch: Bch::new(alloc, mode)?,
            message: Bits::zeroed(alloc, mode.kbch())?,
            bch_word: Bits::zeroed(alloc, mode.k())?,
            codeword: Bits::zeroed(alloc, mode.n())?,
        })
    }

    /// Makes the codeword (FECFRAME) of a header and its data field: that of the BCH word of the scrambled baseband
    /// frame (BBFRAME). It takes no memory.
    pub fn encode(&mut self, header: &Header, field: &[u8])
        requires roll_off { header.now.roll_off ≤ 3 }
        requires field { length field.now ≤ field_bytes self.old.mode }
        ensures codeword { IsCodewordFor self.old.mode self.old.rows header.now field.now self.new.codeword }
        ensures same_mode { self.new.mode ≡ self.old.mode }
        ensures same_rows { self.new.rows ≡ self.old.rows }
    {
        let mut bytes = [0u8; 10];
        header.write(&mut bytes);
        frame_bits_into(&bytes, field, self.message.truths_mut());
        bb_xor_in_place(&mut self.message);
        self.bch.encode_into(&self.message, &mut self.bch_word);
        s2_ldpc::encode_into(self.matrix, &self.bch_word, &mut self.codeword);
    }

    /// The last codeword.
    pub fn codeword(&self) -> &Bits
        ensures is { result.now ≡ self.now.codeword }
        ensures long { length result.now ≡ n_of self.now.mode }
    {
        &self.codeword
    }
}

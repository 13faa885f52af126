//! From decided bits to a BCH word: decoding of EN 302 307-1, 5.3.1.
ghost use Rattle.std.specs.Prelude.{◌≡◌, ◌≤◌, length, replicate, false, IfOk};
ghost use Rattle.s2_mode.specs.Mode.{k_of};
ghost use Rattle.s2_message.specs.Decisions.{received_word};
ghost use Rattle.s2_message.specs.Reading.{FindsWord};

use s2_bch::Bch;
use s2_bits::Bits;
use s2_mode::Mode;
use std::alloc::{AllocError, Global};
use std::marker::Model;

/// Decodes the first bits of a word. Returns in how many places the BCH word found differs, or `None` if there is
/// none near enough.
fn find_word(mode: Mode, bch: &mut Bch, bits: &Bits, bch_word: &mut Bits) -> Option<u32>
    requires code { bch.old ≡ mode }
    requires bits { k_of mode ≤ length bits.now }
    requires bch_word { length bch_word.old ≡ k_of mode }
    ensures same { bch.new ≡ bch.old }
    ensures long { length bch_word.new ≡ k_of mode }
    ensures nearest { FindsWord mode (received_word mode bits.now) bch_word.new result }
{
    bch_word.copy_prefix(bits, mode.k());
    bch.decode_in_place(bch_word)
}

/// Corrects the decided bits of frames. In contracts, it is its mode, and the word that it left last.
pub(crate) struct Corrector {
    mode: Mode,
    bch: Bch,
    word: Bits,
}

impl Drop for Corrector {
    fn drop(self) {
        let Corrector {
            mode: _,
            bch: _,
            word: _,
        } = self;
    }
}

impl Model for Corrector {
    ghost use Rattle.std.specs.Prelude.{◌≡◌, length};
    ghost use Rattle.s2_mode.specs.Mode.{k_of};
    ghost use Rattle.s2_message.specs.Reading.{Correcting};

    ghost Value = { Correcting };

    ghost view = { λ c. record { mode = c.mode; word = c.word } };

    ghost invariant = { λ c. (c.bch ≡ c.mode) × (length c.word ≡ k_of c.mode) };
}

impl Corrector {
    /// The corrector of a mode.
    pub(crate) fn new(alloc: Global, mode: Mode) -> Result<Corrector, AllocError>
        ensures mode { IfOk result (λ c. c.mode ≡ mode) }
        ensures zeros { IfOk result (λ c. c.word ≡ replicate (k_of mode) false) }
    {
        Ok(Corrector {
            mode,
            bch: Bch::new(alloc, mode)?,
            word: Bits::zeroed(alloc, mode.k())?,
        })
    }

    /// Decodes the first of these bits. Returns in how many places the BCH word left there differs, or that
    /// none is near enough; then they are unchanged.
    pub(crate) fn correct(&mut self, bits: &Bits) -> Option<u32>
        requires bits { k_of self.old.mode ≤ length bits.now }
        ensures mode { self.new.mode ≡ self.old.mode }
        ensures nearest { FindsWord self.old.mode (received_word self.old.mode bits.now) self.new.word result }
    {
        find_word(self.mode, &mut self.bch, bits, &mut self.word)
    }

    /// The word that was left last.
    pub(crate) fn word(&self) -> &Bits
        ensures is { result.now ≡ self.now.word }
        ensures long { length result.now ≡ k_of self.now.mode }
    {
        &self.word
    }
}

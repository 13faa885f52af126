//! Modes.
ghost use Rattle.std.specs.Prelude.{◌≡◌, ◌<◌, ◌↔◌, IsSome, IfSome};
ghost use Rattle.s2_mode.specs.Table.{code_rate_text};
ghost use Rattle.s2_mode.specs.Mode.{mode_of, IsMode, modcod_of, modulation_of, is_qpsk, rate_index, ideal_of, kbch_of, k_of, n_of, t_of, q_of, rate_of, width_of, slots_of, pilot_blocks_of, symbols_in, shape_in, HasCodeSizes, HasFrameSizes};

use crate::limits::{HEADER_SYMBOLS, MAX_MODCOD};
use crate::modcods::{MODCODS, Modcod, Modulation};
use crate::rates::{CodeRate, RATES, line_at};
use crate::shape::Shape;
use std::marker::Model;

/// A mode: a MODCOD, whether frames are short, and whether they have pilot blocks.
#[derive(Clone, Copy, Debug, PartialEq, Eq)]
pub struct Mode {
    modcod: u8,
    short: bool,
    pilots: bool,
}

impl Model for Mode {
    ghost use Rattle.s2_mode.specs.Mode.{Mode as ModeValue, IsMode, mode_of};

    ghost Value = { ModeValue };

    ghost view = { λ m. mode_of m.modcod m.short m.pilots };

    ghost invariant = { λ m. IsMode (mode_of m.modcod m.short m.pilots) };

    ghost inverse = { λ v. record { modcod = v.modcod; short = v.short; pilots = v.pilots } };
}

impl Mode {
    /// The mode of a MODCOD, short or normal frames, with or without pilots. `None` for a MODCOD outside 1 to 17, and
    /// for rate 9/10 with short frames, which the standard does not have.
    pub fn of(modcod: u8, short: bool, pilots: bool) -> Option<Mode>
        ensures found { IsSome result ↔ IsMode (mode_of modcod short pilots) }
        ensures value { IfSome result (λ m. m ≡ mode_of modcod short pilots) }
    {
        if modcod < 1 || modcod > MAX_MODCOD {
            return None;
        }
        if short && (modcod == 11 || modcod == 17) {
            return None;
        }
        Some(Mode {
            modcod,
            short,
            pilots,
        })
    }

    fn line(&self) -> Modcod
        ensures is { result ≡ modcod_of self.now }
        ensures valid { IsMode self.now }
    {
        MODCODS[usize::from(self.modcod) - 1]
    }

    /// The constellation.
    #[tactic(auto, unfolding(crate::specs::Mode::modulation_of))]
    pub fn modulation(&self) -> Modulation
        ensures is { result ≡ modulation_of self.now }
        ensures valid { IsMode self.now }
    {
        self.line().modulation
    }

    /// Whether symbols carry two bits (QPSK), and not three (8PSK).
    #[tactic(auto, unfolding(crate::specs::Mode::is_qpsk))]
    pub fn is_qpsk(&self) -> bool
        ensures is { result ≡ is_qpsk self.now }
        ensures valid { IsMode self.now }
    {
        match self.modulation() {
            Modulation::Qpsk => true,
            Modulation::Psk8 => false,
        }
    }

    /// The place of the code rate among the eleven, from 1/4, which is 0, to 9/10, which is 10.
    #[tactic(auto, unfolding(crate::specs::Mode::rate_index))]
    pub fn rate_index(&self) -> usize
        ensures is { result ≡ rate_index self.now }
        ensures within { result < 11 }
        ensures valid { IsMode self.now }
    {
        self.line().rate_index
    }

    fn rate(&self) -> CodeRate
        ensures text { result.text.now ≡ code_rate_text (rate_of self.now) }
        ensures sizes { result.sizes ≡ (rate_of self.now).sizes }
        ensures valid { IsMode self.now }
    {
        line_at(&RATES, self.rate_index())
    }

    /// The code rate as it is written, `3/4`.
    pub fn code_rate(&self) -> &'static str
        ensures is { result.now ≡ code_rate_text (rate_of self.now) }
        ensures valid { IsMode self.now }
    {
        self.rate().text
    }

    /// The Es/N0 at which quasi error free reception begins over a channel with noise alone, in hundredths of a dB. It
    /// is that of normal frames (EN 302 307-1, table 13).
    #[tactic(auto, unfolding(crate::specs::Mode::ideal_of))]
    pub fn ideal(&self) -> i16
        ensures is { result ≡ ideal_of self.now }
        ensures valid { IsMode self.now }
    {
        self.line().ideal
    }

    /// The MODCOD, 1 to 17.
    pub fn modcod(&self) -> u8
        ensures is { result ≡ self.now.modcod }
        ensures valid { IsMode self.now }
    {
        self.modcod
    }

    /// Whether frames have 16200 bits, and not 64800.
    pub fn is_short(&self) -> bool
        ensures is { result ≡ self.now.short }
        ensures valid { IsMode self.now }
    {
        self.short
    }

    /// Whether frames have pilot blocks.
    pub fn has_pilots(&self) -> bool
        ensures is { result ≡ self.now.pilots }
        ensures valid { IsMode self.now }
    {
        self.pilots
    }

    /// Kbch, how many bits a message of the BCH code has.
    #[tactic(auto, unfolding(crate::specs::Mode::kbch_of))]
    pub fn kbch(&self) -> usize
        ensures is { result ≡ kbch_of self.now }
        ensures valid { IsMode self.now }
        ensures sizes { HasCodeSizes self.now }
    {
        if self.short {
            self.rate().sizes.short_kbch
        } else {
            self.rate().sizes.kbch
        }
    }

    /// k, how many information bits a codeword has, which is the length of a BCH word too.
    #[tactic(auto, unfolding(crate::specs::Mode::k_of))]
    pub fn k(&self) -> usize
        ensures is { result ≡ k_of self.now }
        ensures valid { IsMode self.now }
        ensures sizes { HasCodeSizes self.now }
    {
        if self.short {
            self.rate().sizes.short_k
        } else {
            self.rate().sizes.k
        }
    }

    /// n, how many bits a codeword has.
    #[tactic(auto, unfolding(crate::specs::Mode::n_of))]
    pub fn n(&self) -> usize
        ensures is { result ≡ n_of self.now }
        ensures valid { IsMode self.now }
        ensures sizes { HasCodeSizes self.now }
    {
        if self.short { 16200 } else { 64800 }
    }

    /// t, how many wrong bits of a BCH word can be corrected.
    #[tactic(auto, unfolding(crate::specs::Mode::t_of))]
    pub fn t(&self) -> usize
        ensures is { result ≡ t_of self.now }
        ensures valid { IsMode self.now }
        ensures sizes { HasCodeSizes self.now }
    {
        if self.short { 12 } else { self.rate().sizes.t }
    }

    /// q, by how many checks each next bit of a group moves on.
    #[tactic(auto, unfolding(crate::specs::Mode::q_of))]
    pub fn q(&self) -> usize
        ensures is { result ≡ q_of self.now }
        ensures valid { IsMode self.now }
        ensures sizes { HasCodeSizes self.now }
    {
        (self.n() - self.k()) / 360
    }

    /// The shape of the LDPC code: groups of 360 bits.
    #[tactic(auto, using(crate::proofs::Modes::valid_shape))]
    pub fn shape(&self) -> Shape
        ensures is { result ≡ shape_in self.now }
        ensures valid { IsMode self.now }
        ensures sizes { HasCodeSizes self.now }
    {
        Shape::of(360, self.k() / 360, self.q())
    }

    /// How many bits a symbol carries.
    #[tactic(auto, unfolding(crate::specs::Mode::width_of))]
    pub fn width(&self) -> usize
        ensures is { result ≡ width_of self.now }
        ensures valid { IsMode self.now }
        ensures sizes { HasFrameSizes self.now }
    {
        if self.is_qpsk() { 2 } else { 3 }
    }

    /// How many slots of 90 symbols a frame has.
    #[tactic(auto, using(crate::proofs::Modes::frame_sizes), unfolding(crate::specs::Mode::slots_of))]
    pub fn slots(&self) -> usize
        ensures is { result ≡ slots_of self.now }
        ensures valid { IsMode self.now }
        ensures sizes { HasFrameSizes self.now }
    {
        self.n() / self.width() / 90
    }

    /// How many pilot blocks of 36 symbols a frame has.
    #[tactic(auto, unfolding(crate::specs::Mode::pilot_blocks_of))]
    pub fn pilot_blocks(&self) -> usize
        ensures is { result ≡ pilot_blocks_of self.now }
        ensures valid { IsMode self.now }
        ensures sizes { HasFrameSizes self.now }
    {
        if self.pilots {
            (self.slots() - 1) / 16
        } else {
            0
        }
    }

    /// How many symbols a frame has, header and pilots included.
    pub fn symbols(&self) -> usize
        ensures is { result ≡ symbols_in self.now }
        ensures valid { IsMode self.now }
        ensures sizes { HasFrameSizes self.now }
    {
        HEADER_SYMBOLS + 90 * self.slots() + 36 * self.pilot_blocks()
    }
}

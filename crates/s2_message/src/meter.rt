//! The figures of one decided frame: how far the received symbols are from those that were sent.
//!
//! The meter makes the frame (PLFRAME, EN 302 307-1, 5.5) of the decided word again, and compares. It finds exactly the
//! figures that `figures_of` defines: the wrong bits of the header, the bits that differ from the hard decision, and the
//! squared distances of all symbols. These are summed over the known symbols, which are the header's and the pilots', and
//! over the payload's. So are the power of the received symbols and their correlation with those that were sent. From these
//! a link's gain and noise are computed, whatever the amplitude is (`laws::scaling` of `s2_modem`).
ghost use Rattle.std.specs.Prelude.{◌≡◌, length, IfOk};
ghost use Rattle.s2_mode.specs.Mode.{n_of, symbols_in};

use crate::changed::changed_bits;
use crate::correlations::correlations_of;
use crate::errors::errors_of;
use crate::header::header_errors;
use s2_bits::Bits;
use s2_equalize::Removed;
use s2_map::map_into;
use s2_mode::{Mode, Symbol};
use s2_plframe::frame_into;
use s2_report::Figures;
use s2_scramble::{Gold, ScramblingNumber};
use std::alloc::{AllocError, Global};
use std::marker::Model;

/// Finds the figures of a mode's decided frames, in its own buffers. Its value is the mode and the scrambling number.
pub struct FigureMeter {
    mode: Mode,
    gold: Gold,
    payload: Vec<Symbol>,
    sent: Vec<Symbol>,
    hard: Bits,
}

impl Drop for FigureMeter {
    fn drop(self) {
        let FigureMeter {
            mode: _,
            gold: _,
            payload: _,
            sent: _,
            hard: _,
        } = self;
    }
}

impl Model for FigureMeter {
    ghost use Rattle.std.specs.Prelude.{◌≡◌, ◌*◌, length};
    ghost use Rattle.s2_mode.specs.Mode.{n_of, slots_of, symbols_in};
    ghost use Rattle.s2_message.specs.Figures.{FigureMeter as MeterValue, meter_of};

    ghost Value = { MeterValue };

    ghost view = { λ f. meter_of f.mode f.gold };

    ghost invariant = { λ f. (length f.payload.items ≡ 90 * slots_of f.mode) × (length f.sent.items ≡ symbols_in f.mode)
        × (length f.hard ≡ n_of f.mode) };
}

impl FigureMeter {
    ghost use Rattle.s2_message.specs.Figures.{meter_of, figures_of};

    /// The finder of a mode and a scrambling number (EN 302 307-1, 5.5.4). `AllocError` only if it is out of memory.
    pub fn new(
        alloc: Global,
        mode: Mode,
        number: ScramblingNumber,
    ) -> Result<FigureMeter, AllocError>
        ensures { IfOk result (λ f. f ≡ meter_of mode number) }
    {
        let origin = Symbol { i: 0, q: 0 };
        Ok(FigureMeter {
            mode,
            gold: Gold::of(alloc, number)?,
            payload: vec![in alloc; origin; 90 * mode.slots()]?,
            sent: vec![in alloc; origin; mode.symbols()]?,
            hard: Bits::zeroed(alloc, mode.n())?,
        })
    }

    /// The figures of a frame, from the symbols that were decided, the gain that the equalizer removed from them, their soft
    /// values, the decided word and the number of min-sum's rounds that were run.
    ///
    /// `symbols` has `mode.symbols()` symbols, rotated back and equalized like those of the soft values. `soft` has
    /// `mode.n()` values in the order of the codeword, and `word` that many bits, which need not be a codeword. It takes no
    /// memory.
    pub fn find(
        &mut self,
        symbols: &[Symbol],
        removed: Option<Removed>,
        soft: &[i16],
        word: &Bits,
        rounds: u32,
    ) -> Figures
        requires symbols { length symbols.now ≡ symbols_in self.old.mode }
        requires soft { length soft.now ≡ n_of self.old.mode }
        requires word { length word.now ≡ n_of self.old.mode }
        ensures is { result ≡ figures_of self.old.mode self.old.number symbols.now removed soft.now word.now rounds }
        ensures same { self.new ≡ self.old }
    {
        map_into(self.mode, word, &mut self.payload);
        frame_into(self.mode, &self.gold, &self.payload, &mut self.sent);
        let errors = errors_of(self.mode, symbols, &self.sent);
        let correlations = correlations_of(self.mode, symbols, &self.sent);
        Figures {
            header: header_errors(self.mode, symbols),
            rounds,
            changed: changed_bits(self.mode, soft, word, &mut self.hard),
            known: errors.known,
            payload: errors.payload,
            known_correlation: correlations.known,
            payload_correlation: correlations.payload,
            removed,
        }
    }
}

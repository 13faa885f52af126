//! The equalizer of a mode's frames.
ghost use Rattle.std.specs.Prelude.{◌≡◌, ◌+◌, ◌-◌, ◌*◌, ◌<◌, ◌≤◌, IfOk, length, map};
ghost use Rattle.std.specs.List.{range_with_len};
ghost use Rattle.s2_mode.specs.Mode.{symbols_in};
ghost use Rattle.s2_equalize.specs.Bounds.{AreSmall};
ghost use Rattle.s2_equalize.specs.Complex.{complex_at};
ghost use Rattle.s2_equalize.specs.Equalizer.{equalized_symbol};
ghost use Rattle.s2_equalize.specs.Gains.{gains_of, known_frame};
ghost use Rattle.s2_equalize.specs.Gains as by;

use crate::complex::{Complex, ORIGIN};
use crate::factors::{fineness, invert_each};
use crate::frame::multiply_frame;
use crate::gains::find_gains;
use crate::smoothing::smooth_into;
use s2_mode::{Mode, Symbol};
use s2_plframe::frame_into;
use s2_scramble::{Gold, ScramblingNumber};
use std::alloc::{AllocError, Global};
use std::marker::Model;

/// Equalizes the frames of a mode, in its own buffers. Its value is the mode and the scrambling number.
pub struct Equalizer {
    mode: Mode,
    number: u32,
    known: Vec<Symbol>,
    gains: Vec<Complex>,
    smoothed: Vec<Complex>,
}

impl Drop for Equalizer {
    fn drop(self) {
        let Equalizer {
            mode: _,
            number: _,
            known: _,
            gains: _,
            smoothed: _,
        } = self;
    }
}

impl Model for Equalizer {
    ghost use Rattle.std.specs.Prelude.{◌≡◌, ◌+◌, length};
    ghost use Rattle.s2_mode.specs.Mode.{pilot_blocks_of};
    ghost use Rattle.s2_equalize.specs.Gains.{known_frame};
    ghost use Rattle.s2_equalize.specs.Equalizer.{Equalizer as EqualizerValue, equalizer_of};

    ghost Value = { EqualizerValue };

    ghost view = { λ e. equalizer_of e.mode e.number };

    ghost invariant = { λ e. (e.known.items ≡ known_frame e.mode e.number) × (length e.gains.items ≡ pilot_blocks_of e.mode + 1)
        × (length e.smoothed.items ≡ pilot_blocks_of e.mode + 2) };
}

/// The symbols of a mode's frames that are known, and the origin at all other places.
fn known_frame(
    alloc: Global,
    mode: Mode,
    number: ScramblingNumber,
) -> Result<Vec<Symbol>, AllocError>
    ensures { IfOk result (λ v. v.items ≡ known_frame mode number) }
{
    let origin = Symbol { i: 0, q: 0 };
    let gold = Gold::of(alloc, number)?;
    let payload = vec![in alloc; origin; 90 * mode.slots()]?;
    let mut known = vec![in alloc; origin; mode.symbols()]?;
    frame_into(mode, &gold, &payload, &mut known);
    Ok(known)
}

/// What an equalizer removes from a frame. `gain` is the gain of the channel at the header, in 1/1024, smoothed over the blocks
/// near it. `rotation` is the rotation of the carrier from block to block, as a number of the size 32768.
#[derive(Clone, Copy, Debug, PartialEq, Eq)]
pub struct Removed {
    pub gain: Complex,
    pub rotation: Complex,
}

/// Writes the symbols of a frame, each divided by the gain of the channel, and returns the removed gain. `gains` and `smoothed`
/// are for the gains of its blocks.
fn equalize(
    known: &[Symbol],
    symbols: &[Symbol],
    gains: &mut [Complex],
    smoothed: &mut [Complex],
    out: &mut [Symbol],
) -> Removed
    requires small { AreSmall known.now }
    requires known { length known.now ≡ length symbols.now }
    requires whole { 90 + 1476 * (length gains.old - 1) ≤ length symbols.now }
    requires most { length symbols.now ≤ 33282 }
    requires some { 0 < length gains.old }
    requires blocks { length smoothed.old ≡ length gains.old + 1 }
    requires room { length out.old ≡ length symbols.now }
    ensures is { out.new ≡ map (equalized_symbol (by.smoothed (gains_of symbols.now known.now (length gains.old - 1))) symbols.now) (range_with_len 0 (length symbols.now)) }
    ensures gain { result.gain ≡ complex_at (by.smoothed (gains_of symbols.now known.now (length gains.old - 1))) 0 }
    ensures rotation { result.rotation ≡ by.turn (gains_of symbols.now known.now (length gains.old - 1)) }
{
    find_gains(symbols, known, gains);
    let rotation = smooth_into(gains, smoothed);
    let gain = smoothed[0];
    let fineness = fineness(smoothed);
    invert_each(fineness, smoothed);
    multiply_frame(smoothed, fineness, symbols, out);
    Removed { gain, rotation }
}

impl Equalizer {
    ghost use Rattle.s2_equalize.specs.Equalizer.{equalized, equalizer_of, removed};

    /// The equalizer of a mode and a scrambling number (EN 302 307-1, 5.5.4), with all the memory that it needs.
    /// `AllocError` only if it is out of memory.
    pub fn new(alloc: Global, mode: Mode, number: ScramblingNumber) -> Result<Equalizer, AllocError>
        ensures { IfOk result (λ e. e ≡ equalizer_of mode number) }
    {
        let blocks = mode.pilot_blocks();
        Ok(Equalizer {
            mode,
            number: number.get(),
            known: known_frame(alloc, mode, number)?,
            gains: vec![in alloc; ORIGIN; blocks + 1]?,
            smoothed: vec![in alloc; ORIGIN; blocks + 2]?,
        })
    }

    /// Writes the symbols of a received frame, each divided by the gain of the channel, and returns the removed gain.
    ///
    /// `symbols` has `mode.symbols()` received symbols, header and pilots among them, not rotated back by the
    /// scrambler. `out` has the same number. Each is written. It takes no memory.
    pub fn equalize_into(&mut self, symbols: &[Symbol], out: &mut [Symbol]) -> Removed
        requires symbols { length symbols.now ≡ symbols_in self.old.mode }
        requires room { length out.old ≡ symbols_in self.old.mode }
        ensures is { out.new ≡ equalized self.old.mode self.old.number symbols.now }
        ensures removed { result ≡ removed self.old.mode self.old.number symbols.now }
        ensures same { self.new ≡ self.old }
    {
        // the clauses of the mode are a part of this proof
        let _blocks = self.mode.pilot_blocks();
        equalize(
            &self.known,
            symbols,
            &mut self.gains,
            &mut self.smoothed,
            out,
        )
    }
}

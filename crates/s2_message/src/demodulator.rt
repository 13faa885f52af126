//! From a frame's symbols to the soft values of its codeword: the inverse of EN 302 307-1, 5.4 and 5.5.
ghost use Rattle.std.specs.Prelude.{◌≡◌, ◌*◌, All, length, IfOk};
ghost use Rattle.s2_mode.specs.Mode.{n_of, slots_of, symbols_in};
ghost use Rattle.s2_check.specs.Views.{IsSoft};
ghost use Rattle.s2_plframe.specs.Payload.{received_payload};
ghost use Rattle.s2_soft.specs.Soft.{soft_values};

use s2_mode::{Mode, Symbol};
use s2_plframe::payload_of;
use s2_scramble::{Gold, ScramblingNumber};
use s2_soft::{Divisor, soft_into};
use std::alloc::{AllocError, Global};
use std::marker::Model;

/// Writes the soft values of a frame's codeword, by this divisor.
fn find_soft(
    mode: Mode,
    divisor: Divisor,
    gold: &Gold,
    symbols: &[Symbol],
    payload: &mut [Symbol],
    soft: &mut [i16],
)
    requires frame { length symbols.now ≡ symbols_in mode }
    requires payload { length payload.old ≡ 90 * slots_of mode }
    requires soft { length soft.old ≡ n_of mode }
    ensures is { soft.new ≡ soft_values divisor mode (received_payload mode gold.now symbols.now) }
    ensures range { All IsSoft soft.new }
{
    payload_of(mode, gold, symbols, payload);
    soft_into(mode, divisor, payload, soft);
}

/// The demodulator of a receiver, with its buffer. In contracts, it is its mode, its divisor and its scrambling
/// number.
pub(crate) struct Demodulator {
    mode: Mode,
    divisor: Divisor,
    gold: Gold,
    payload: Vec<Symbol>,
}

impl Drop for Demodulator {
    fn drop(self) {
        let Demodulator {
            mode: _,
            divisor: _,
            gold: _,
            payload: _,
        } = self;
    }
}

impl Model for Demodulator {
    ghost use Rattle.std.specs.Prelude.{◌≡◌, ◌*◌, length};
    ghost use Rattle.s2_mode.specs.Mode.{slots_of};
    ghost use Rattle.s2_message.specs.Reading.{Demodulating};

    ghost Value = { Demodulating };

    ghost view = { λ d. record { mode = d.mode; divisor = d.divisor; number = d.gold } };

    ghost invariant = { λ d. length d.payload.items ≡ 90 * slots_of d.mode };
}

impl Demodulator {
    /// The demodulator of a mode and a scrambling number, by this divisor.
    pub(crate) fn new(
        alloc: Global,
        mode: Mode,
        number: ScramblingNumber,
        divisor: Divisor,
    ) -> Result<Demodulator, AllocError>
        ensures mode { IfOk result (λ d. d.mode ≡ mode) }
        ensures divisor { IfOk result (λ d. d.divisor ≡ divisor) }
        ensures number { IfOk result (λ d. d.number ≡ number) }
    {
        let origin = Symbol { i: 0, q: 0 };
        Ok(Demodulator {
            mode,
            divisor,
            gold: Gold::of(alloc, number)?,
            payload: vec![in alloc; origin; 90 * mode.slots()]?,
        })
    }

    /// Writes the soft values of a frame's codeword.
    pub(crate) fn find_soft(&mut self, symbols: &[Symbol], soft: &mut [i16])
        requires frame { length symbols.now ≡ symbols_in self.old.mode }
        requires soft { length soft.old ≡ n_of self.old.mode }
        ensures is { soft.new ≡ soft_values self.old.divisor self.old.mode (received_payload self.old.mode self.old.number symbols.now) }
        ensures range { All IsSoft soft.new }
        ensures same { self.new ≡ self.old }
    {
        find_soft(
            self.mode,
            self.divisor,
            &self.gold,
            symbols,
            &mut self.payload,
            soft,
        );
    }
}

//! Physical layer scrambling (EN 302 307-1, 5.5.4).
ghost use Rattle.std.specs.Prelude.{◌≡◌, ℕ, ◌+◌, ◌<◌, ◌≤◌, ◌↔◌, IfOk, IsErrOf, length};
ghost use Rattle.s2_mode.specs.declared.symbols.Symbol.{Symbol};
ghost use Rattle.s2_scramble.specs.Gold.{max_number, max_scrambled, quarter_turns};
ghost use Rattle.s2_mode.specs.Symbols.{symbol_at};
ghost use Rattle.s2_scramble.specs.Rotations.{rotated, rotated_back, CanRotateBack};

use crate::number::ScramblingNumber;
use crate::rotate::{rotate_each, rotate_each_back, rotated, rotated_back};
use crate::tables::quarter_turns;
use s2_mode::Symbol;
use std::alloc::{AllocError, Global};
use std::marker::Model;
use thiserror::Error;

/// The largest scrambling number.
pub const MAX_NUMBER: u32 = 262141;

/// How many symbols can follow a frame's header: those of QPSK in normal frames with pilots.
pub const MAX_SCRAMBLED: usize = 33192;

/// Why there is no scrambler.
#[derive(Clone, Copy, Debug, PartialEq, Eq, Error)]
pub enum GoldFault {
    /// The number is over 262141, so no Gold sequence of the standard has it.
    #[error("no such scrambling number")]
    BadNumber,
    /// There is no memory for the scrambler's tables.
    #[error("no memory")]
    NoMemory,
}

/// The PL scrambler for one scrambling number (EN 302 307-1, 5.5.4): the Gold code rotates each symbol after a frame's
/// header by quarter turns. Its value is that number.
pub struct Gold {
    number: u32,
    quarters: Vec<u16>,
}

impl Drop for Gold {
    fn drop(self) {
        let Gold {
            number: _,
            quarters: _,
        } = self;
    }
}

impl Model for Gold {
    ghost use Rattle.std.specs.Prelude.{ℕ};
    ghost use Rattle.s2_scramble.specs.Rotations.{HoldsRotations};

    ghost Value = { ℕ };

    ghost view = { λ g. g.number };

    ghost invariant = { λ g. HoldsRotations g.number g.quarters.items };
}

impl Gold {
    /// The scrambler of a scrambling number (EN 302 307-1, 5.5.4). Refuses a number over 262141
    /// with `BadNumber`, before it takes memory, and returns `NoMemory` if memory is refused.
    /// Then nothing is kept.
    pub fn new(alloc: Global, number: u32) -> Result<Gold, GoldFault>
        ensures number { IfOk result (λ g. g ≡ number) }
        ensures bad_number { IsErrOf result GoldFault.BadNumber ↔ (max_number < number) }
    {
        let Some(number) = ScramblingNumber::new(number) else {
            return Err(GoldFault::BadNumber);
        };
        Gold::of(alloc, number).map_err(|_| GoldFault::NoMemory)
    }

    /// The scrambler of a scrambling number. `AllocError` only if memory is refused, and then nothing is kept.
    pub fn of(alloc: Global, number: ScramblingNumber) -> Result<Gold, AllocError>
        ensures { IfOk result (λ g. g ≡ number) }
    {
        let number = number.get();
        let quarters = quarter_turns(alloc, number)?;
        Ok(Gold { number, quarters })
    }

    /// The scrambling number.
    pub fn number(&self) -> u32
        ensures is { result ≡ self.now }
        ensures few { result ≤ max_number }
    {
        self.number
    }

    /// R(i) of the standard: by how many quarter turns symbol `i` after the header is rotated, 0 to 3.
    pub fn quarter(&self, i: usize) -> u8
        requires { i < max_scrambled }
        ensures { result ≡ quarter_turns self.now i }
    {
        self.quarters[i] as u8
    }

    /// Rotates a symbol as symbol `i` after the header. The negative of -32768 is 32767.
    pub fn turn(&self, i: usize, symbol: Symbol) -> Symbol
        requires { i < max_scrambled }
        ensures { result ≡ rotated (quarter_turns self.now i) symbol }
    {
        rotated(self.quarters[i], symbol)
    }

    /// Rotates symbol `i` after the header back. This undoes `turn` if no component is -32768.
    pub fn unturn(&self, i: usize, symbol: Symbol) -> Symbol
        requires { i < max_scrambled }
        ensures is { result ≡ rotated_back (quarter_turns self.now i) symbol }
        ensures undoes { (sent : Symbol) → CanRotateBack sent → symbol ≡ rotated (quarter_turns self.now i) sent
            → result ≡ sent }
    {
        rotated_back(self.quarters[i], symbol)
    }

    /// Rotates symbols as those from symbol `at` after the header on.
    pub fn turn_into(&self, at: usize, symbols: &[Symbol], out: &mut [Symbol])
        requires same { length out.old ≡ length symbols.now }
        requires within { at + length symbols.now ≤ max_scrambled }
        ensures { (k : ℕ) → k < length symbols.now
            → symbol_at out.new k ≡ rotated (quarter_turns self.now (at + k)) (symbol_at symbols.now k) }
    {
        let quarters = &self.quarters[at..at + symbols.len()];
        rotate_each(quarters, symbols, out);
    }

    /// Rotates symbols back, as those from symbol `at` after the header on.
    pub fn derotate_into(&self, at: usize, symbols: &[Symbol], out: &mut [Symbol])
        requires same { length out.old ≡ length symbols.now }
        requires within { at + length symbols.now ≤ max_scrambled }
        ensures { (k : ℕ) → k < length symbols.now
            → symbol_at out.new k ≡ rotated_back (quarter_turns self.now (at + k)) (symbol_at symbols.now k) }
    {
        let quarters = &self.quarters[at..at + symbols.len()];
        rotate_each_back(quarters, symbols, out);
    }
}

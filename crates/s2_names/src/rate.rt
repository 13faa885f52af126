//! Symbol rates.
ghost use Rattle.std.specs.Prelude.{◌≡◌, ◌↔◌, ℕ, IsSome, IfSome};
ghost use Rattle.s2_names.specs.Rates.{IsRate};
ghost use Rattle.s2_names.specs.RateTexts.{IsRateText};

use crate::rate_text::{power_of, scaled, split_digits, split_fraction};
use std::marker::Model;

/// The highest symbol rate, in symbols per second.
pub const MAX_RATE: usize = 1_000_000_000;

/// A symbol rate, 1 to 1,000,000,000 symbols per second. Its value is that number.
#[derive(Clone, Copy, Debug, PartialEq, Eq)]
pub struct SymbolRate {
    symbols: usize,
}

impl Model for SymbolRate {
    ghost use Rattle.std.specs.Prelude.{ℕ};
    ghost use Rattle.s2_names.specs.Rates.{IsRate};

    ghost Value = { ℕ };

    ghost view = { λ r. r.symbols };

    ghost invariant = { λ r. IsRate r.symbols };

    ghost inverse = { λ v. record { symbols = v } };
}

impl SymbolRate {
    /// The rate of this number of symbols per second, if it is in the range.
    pub fn new(symbols: usize) -> Option<SymbolRate>
        ensures found { IsSome result ↔ IsRate symbols }
        ensures value { IfSome result (λ r. r ≡ symbols) }
    {
        if 1 <= symbols && symbols <= MAX_RATE {
            Some(SymbolRate { symbols })
        } else {
            None
        }
    }

    /// The rate that a text writes: digits, at most one point between two of them, and then nothing, `k` or `K` for a
    /// thousand, `M` for a million, or `e` or `E` and one digit. The value is a whole number in the range.
    pub fn read(text: &str) -> Option<SymbolRate>
        ensures found { IsSome result ↔ ((rate : ℕ) × IsRateText text.now rate) }
        ensures value { IfSome result (IsRateText text.now) }
    {
        let (whole, rest) = split_digits(text.as_bytes())?;
        let (fraction, ending) = split_fraction(rest)?;
        let power = power_of(ending)?;
        SymbolRate::new(scaled(whole, fraction, power)?)
    }

    /// The number.
    pub fn get(self) -> usize
        ensures value { result ≡ self }
        ensures range { IsRate result }
    {
        self.symbols
    }
}

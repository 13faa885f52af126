//! Scrambling numbers.
ghost use Rattle.std.specs.Prelude.{◌≡◌, ◌≤◌, ◌↔◌, IsSome, IfSome};
ghost use Rattle.s2_scramble.specs.Gold.{max_number};

use crate::gold::MAX_NUMBER;
use std::marker::Model;

/// A scrambling number of the physical layer, 0 to 262141 (EN 302 307-1, 5.5.4). Its value is that number.
#[derive(Clone, Copy, Debug, PartialEq, Eq)]
pub struct ScramblingNumber {
    number: u32,
}

impl Model for ScramblingNumber {
    ghost use Rattle.std.specs.Prelude.{ℕ, ◌≤◌};
    ghost use Rattle.s2_scramble.specs.Gold.{max_number};

    ghost Value = { ℕ };

    ghost view = { λ s. s.number };

    ghost invariant = { λ s. s.number ≤ max_number };

    ghost inverse = { λ v. record { number = v } };
}

impl ScramblingNumber {
    /// The number, if it is in the range.
    pub fn new(number: u32) -> Option<ScramblingNumber>
        ensures found { IsSome result ↔ (number ≤ max_number) }
        ensures value { IfSome result (λ s. s ≡ number) }
    {
        if number <= MAX_NUMBER {
            Some(ScramblingNumber { number })
        } else {
            None
        }
    }

    /// The number.
    pub fn get(self) -> u32
        ensures value { result ≡ self }
        ensures most { result ≤ max_number }
    {
        self.number
    }
}

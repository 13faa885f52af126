//! Roll-offs.
ghost use Rattle.std.specs.Prelude.{◌≡◌, ◌≤◌, ◌↔◌, IsSome, IfSome};
ghost use Rattle.s2_link.specs.Limits.{max_roll_off};

use std::marker::Model;

/// The highest number of a roll-off (EN 302 307-1, 5.1.6): 0 is 0.35, 1 is 0.25 and 2 is 0.20.
pub const MAX_ROLL_OFF: u8 = 2;

/// A roll-off, by its number in headers (EN 302 307-1, 5.1.6). Its value is that number.
#[derive(Clone, Copy, Debug, PartialEq, Eq)]
pub struct RollOff {
    number: u8,
}

impl Model for RollOff {
    ghost use Rattle.std.specs.Prelude.{ℕ, ◌≤◌};
    ghost use Rattle.s2_link.specs.Limits.{max_roll_off};

    ghost Value = { ℕ };

    ghost view = { λ r. r.number };

    ghost invariant = { λ r. r.number ≤ max_roll_off };

    ghost inverse = { λ v. record { number = v } };
}

impl RollOff {
    /// The roll-off of this number, if there is one.
    pub fn new(number: u8) -> Option<RollOff>
        ensures found { IsSome result ↔ (number ≤ max_roll_off) }
        ensures value { IfSome result (λ r. r ≡ number) }
    {
        if number <= MAX_ROLL_OFF {
            Some(RollOff { number })
        } else {
            None
        }
    }

    /// The number.
    pub fn get(self) -> u8
        ensures value { result ≡ self }
        ensures most { result ≤ max_roll_off }
    {
        self.number
    }
}

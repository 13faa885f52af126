//! How many wrong bits a header may have right after a frame.
ghost use Rattle.std.specs.Prelude.{◌≡◌, ◌↔◌, IsSome, IfSome};
ghost use Rattle.s2_plframe.specs.Constants.{header_threshold};
ghost use Rattle.s2_plframe.specs.Search.{IsHeaderTolerance};

use crate::constants::{HEADER_THRESHOLD, MAX_LOCK};
use std::marker::Model;

/// The largest number of wrong bits that a header may have right after a frame, 12 to 40.
#[derive(Clone, Copy, Debug, PartialEq, Eq)]
pub struct HeaderTolerance {
    number: u32,
}

impl Model for HeaderTolerance {
    ghost use Rattle.std.specs.Prelude.{ℕ};
    ghost use Rattle.s2_plframe.specs.Search.{IsHeaderTolerance};

    ghost Value = { ℕ };

    ghost view = { λ l. l.number };

    ghost invariant = { λ l. IsHeaderTolerance l.number };

    ghost inverse = { λ v. record { number = v } };
}

impl HeaderTolerance {
    /// This number, if it is 12 to 40.
    pub fn new(number: u32) -> Option<HeaderTolerance>
        ensures found { IsSome result ↔ IsHeaderTolerance number }
        ensures value { IfSome result (λ l. l ≡ number) }
    {
        if number >= HEADER_THRESHOLD && number <= MAX_LOCK {
            Some(HeaderTolerance { number })
        } else {
            None
        }
    }

    /// The number of the usual test, 12.
    pub fn usual() -> HeaderTolerance
        ensures { result ≡ header_threshold }
    {
        HeaderTolerance {
            number: HEADER_THRESHOLD,
        }
    }

    /// The number.
    pub fn get(self) -> u32
        ensures is { result ≡ self }
        ensures known { IsHeaderTolerance result }
    {
        self.number
    }
}

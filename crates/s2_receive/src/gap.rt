//! Symbols between frames that belong to none (a gap).
ghost use Rattle.std.specs.Prelude.{◌≡◌, ◌+◌, ◌-◌, ◌^◌, ◌<◌, ◌≤◌};
ghost use Rattle.s2_receive.specs.Meeting.{no_gap, extended, is_gap};
ghost use Rattle.s2_receive.specs.Receiving.{at_end};

use s2_mode::HEADER_SYMBOLS;

/// A gap: the skipped symbols after the last coded frame, which belong to no coded frame and to no dummy frame.
/// It has the position of the first of them in the stream, 0 if there is none, and their number.
#[derive(Clone, Copy, Debug, PartialEq, Eq)]
pub struct Gap {
    pub(crate) first: u64,
    pub(crate) symbols: u64,
}

impl Gap {
    /// No symbols.
    pub(crate) fn none() -> Gap
        ensures { result ≡ no_gap }
    {
        Gap {
            first: 0,
            symbols: 0,
        }
    }

    /// Whether symbols were skipped.
    pub(crate) fn is_gap(self) -> bool
        ensures { result ≡ is_gap self }
    {
        self.symbols > 0
    }

    /// The gap extended by the symbols from one place of a buffer to another. The buffer begins at this symbol of
    /// the stream.
    pub(crate) fn extended(self, at: u64, start: usize, place: usize) -> Gap
        requires room { start < place → (self.symbols < 2 ^ 63) × (at + place < 2 ^ 63) }
        ensures { result ≡ extended self (at + start) (place - start) }
    {
        if place <= start {
            return self;
        }
        let first = if self.is_gap() {
            self.first
        } else {
            at + start as u64
        };
        Gap {
            first,
            symbols: self.symbols + (place - start) as u64,
        }
    }

    /// The part that counts if the stream ends: fewer symbols than a header has count as none.
    pub(crate) fn at_end(self) -> Gap
        ensures { result ≡ at_end self }
    {
        if self.symbols < HEADER_SYMBOLS as u64 {
            Gap::none()
        } else {
            self
        }
    }
}

//! Rotates the symbols of frames back, if they arrived rotated by quarters.
ghost use Rattle.std.specs.Prelude.{◌≡◌, ◌≤◌, IfOk, length, true, if◌then◌else◌};
ghost use Rattle.s2_mode.specs.Limits.{header_symbols};
ghost use Rattle.s2_mode.specs.Mode.{symbols_in};
ghost use Rattle.s2_plframe.specs.Turns.{derotated, turn_of};
ghost use Rattle.s2_message.specs.Reading.{upright};

use s2_mode::{Mode, Symbol};
use s2_plframe::derotate_into;
use std::alloc::{AllocError, Global};
use std::marker::Model;

/// Rotates the frames of a mode back, if the tuning says so, into its own buffer. Otherwise it takes no memory.
pub(crate) struct Derotator {
    mode: Mode,
    turns: bool,
    symbols: Vec<Symbol>,
}

impl Drop for Derotator {
    fn drop(self) {
        let Derotator {
            mode: _,
            turns: _,
            symbols: _,
        } = self;
    }
}

impl Model for Derotator {
    ghost use Rattle.std.specs.Prelude.{◌≡◌, length, true};
    ghost use Rattle.s2_mode.specs.Mode.{symbols_in};
    ghost use Rattle.s2_message.specs.Reading.{Derotating};

    ghost Value = { Derotating };

    ghost view = { λ d. record { mode = d.mode; turns = d.turns; symbols = d.symbols.items } };

    ghost invariant = { λ d. d.turns ≡ true → length d.symbols.items ≡ symbols_in d.mode };
}

/// The number of symbols of the buffer: those of a frame, or none.
fn room_for(mode: Mode, turns: bool) -> usize
    ensures { turns ≡ true → result ≡ symbols_in mode }
{
    if turns { mode.symbols() } else { 0 }
}

impl Derotator {
    /// With `turns` it has the memory for a frame.
    pub(crate) fn new(alloc: Global, mode: Mode, turns: bool) -> Result<Derotator, AllocError>
        ensures mode { IfOk result (λ d. d.mode ≡ mode) }
        ensures turns { IfOk result (λ d. d.turns ≡ turns) }
    {
        Ok(Derotator {
            mode,
            turns,
            symbols: vec![in alloc; Symbol { i: 0, q: 0 }; room_for(mode, turns)]?,
        })
    }

    /// Rotates a frame back, and returns the number of quarters by which it arrived rotated. If it rotates no frames, it returns 0.
    pub(crate) fn derotate(&mut self, frame: &[Symbol]) -> u8
        requires frame { length frame.now ≡ symbols_in self.old.mode }
        requires header { header_symbols ≤ length frame.now }
        ensures turn { result ≡ (if self.old.turns then turn_of self.old.mode frame.now else 0) }
        ensures is { self.old.turns ≡ true → self.new.symbols ≡ derotated self.old.mode frame.now }
        ensures mode { self.new.mode ≡ self.old.mode }
        ensures turns { self.new.turns ≡ self.old.turns }
    {
        if self.turns {
            derotate_into(self.mode, frame, &mut self.symbols)
        } else {
            0
        }
    }

    /// The symbols that are decided: those written last, if it rotates frames back, else these.
    pub(crate) fn upright<'a>(&'a self, frame: &'a [Symbol]) -> &'a [Symbol]
        ensures { result.now ≡ upright self.now frame.now }
    {
        if self.turns { &self.symbols } else { frame }
    }
}

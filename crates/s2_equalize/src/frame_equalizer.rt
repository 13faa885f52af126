//! An equalizer with its buffer, if one is requested.
ghost use Rattle.std.specs.Prelude.{◌≡◌, IfOk, IfSome, length};
ghost use Rattle.s2_mode.specs.Mode.{symbols_in};
ghost use Rattle.s2_equalize.specs.Equalizer.{equalized};
ghost use Rattle.s2_equalize.specs.Wanted.{equalizer_by, held_by, removed_by};

use crate::equalizer::{Equalizer, Removed};
use s2_mode::{Mode, Symbol};
use s2_scramble::ScramblingNumber;
use std::alloc::{AllocError, Global};
use std::marker::Model;

/// Equalizes the frames of a mode, if that is requested, into its buffer. Otherwise it takes no memory. Its value is
/// the equalizer, the symbols that it wrote last, and the gain that it removed from them.
pub struct FrameEqualizer {
    equalizer: Option<Equalizer>,
    symbols: Vec<Symbol>,
    removed: Option<Removed>,
}

impl Drop for FrameEqualizer {
    fn drop(self) {
        let FrameEqualizer {
            equalizer: _,
            symbols: _,
            removed: _,
        } = self;
    }
}

impl Model for FrameEqualizer {
    ghost use Rattle.std.specs.Prelude.{◌≡◌, IfSome, length};
    ghost use Rattle.s2_mode.specs.Mode.{symbols_in};
    ghost use Rattle.s2_equalize.specs.Wanted.{Equalizing};

    ghost Value = { Equalizing };

    ghost view = { λ f. record { equalizer = f.equalizer; symbols = f.symbols.items; removed = f.removed } };

    ghost invariant = { λ f. IfSome f.equalizer (λ e. length f.symbols.items ≡ symbols_in e.mode) };
}

impl FrameEqualizer {
    /// For a mode and a scrambling number, with all the memory that it needs. `AllocError` only if it is out of memory.
    pub fn new(
        alloc: Global,
        mode: Mode,
        number: ScramblingNumber,
        wanted: bool,
    ) -> Result<FrameEqualizer, AllocError>
        ensures { IfOk result (λ f. f.equalizer ≡ equalizer_by wanted mode number) }
    {
        if !wanted {
            return Ok(FrameEqualizer {
                equalizer: None,
                symbols: Vec::new(alloc),
                removed: None,
            });
        }
        let origin = Symbol { i: 0, q: 0 };
        Ok(FrameEqualizer {
            equalizer: Some(Equalizer::new(alloc, mode, number)?),
            symbols: vec![in alloc; origin; mode.symbols()]?,
            removed: None,
        })
    }

    /// Equalizes a frame into the buffer, if that is requested.
    pub fn equalize(&mut self, frame: &[Symbol])
        requires { IfSome self.old.equalizer (λ e. length frame.now ≡ symbols_in e.mode) }
        ensures is { IfSome self.old.equalizer (λ e. self.new.symbols ≡ equalized e.mode e.number frame.now) }
        ensures removed { self.new.removed ≡ removed_by self.old.equalizer frame.now }
        ensures same { self.new.equalizer ≡ self.old.equalizer }
    {
        self.removed = match &mut self.equalizer {
            None => None,
            Some(equalizer) => Some(equalizer.equalize_into(frame, &mut self.symbols)),
        };
    }

    /// The gain and the rotation that were removed from the last frame. `None` if nothing is equalized.
    pub fn removed(&self) -> Option<Removed>
        ensures { result ≡ self.now.removed }
    {
        self.removed
    }

    /// The equalized symbols of the last frame; or those that are given, if nothing is equalized.
    pub fn levelled<'a>(&'a self, frame: &'a [Symbol]) -> &'a [Symbol]
        ensures { result.now ≡ held_by self.now.equalizer self.now.symbols frame.now }
    {
        if self.equalizer.is_some() {
            &self.symbols
        } else {
            frame
        }
    }
}

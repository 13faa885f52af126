//! The figures of a frame, if they are requested.
ghost use Rattle.std.specs.Prelude.{◌≡◌, IfOk, IfSome, length};
ghost use Rattle.s2_mode.specs.Mode.{n_of, symbols_in};
ghost use Rattle.s2_message.specs.Reading.{figures_found, meter_by};

use crate::meter::FigureMeter;
use s2_bits::Bits;
use s2_equalize::Removed;
use s2_mode::{Mode, Symbol};
use s2_report::Figures;
use s2_scramble::ScramblingNumber;
use std::alloc::{AllocError, Global};

/// The finder of the figures of a mode's frames, if they are requested. Otherwise it takes no memory.
pub(crate) fn meter_for(
    alloc: Global,
    mode: Mode,
    number: ScramblingNumber,
    wanted: bool,
) -> Result<Option<FigureMeter>, AllocError>
    ensures { IfOk result (λ f. f ≡ meter_by wanted mode number) }
{
    if wanted {
        Ok(Some(FigureMeter::new(alloc, mode, number)?))
    } else {
        Ok(None)
    }
}

/// The figures of a decided frame, if there is a finder.
pub(crate) fn find_figures(
    meter: &mut Option<FigureMeter>,
    symbols: &[Symbol],
    removed: Option<Removed>,
    soft: &[i16],
    word: &Bits,
    rounds: u32,
) -> Option<Figures>
    requires symbols { IfSome meter.old (λ f. length symbols.now ≡ symbols_in f.mode) }
    requires soft { IfSome meter.old (λ f. length soft.now ≡ n_of f.mode) }
    requires word { IfSome meter.old (λ f. length word.now ≡ n_of f.mode) }
    ensures is { result ≡ figures_found meter.old symbols.now removed soft.now word.now rounds }
    ensures same { meter.new ≡ meter.old }
{
    match meter {
        None => None,
        Some(meter) => Some(meter.find(symbols, removed, soft, word, rounds)),
    }
}

//! The squared distances of a frame, summed over its known symbols and over its payload.
ghost use Rattle.std.specs.Prelude.{◌≡◌, length};
ghost use Rattle.s2_mode.specs.Mode.{symbols_in};
ghost use Rattle.s2_message.specs.Errors.{known_places, payload_places};
ghost use Rattle.s2_message.specs.Figures.{error_over};

use crate::distances::{known_error, piece_error};
use crate::pilots::PILOT_BLOCK;
use s2_mode::{HEADER_SYMBOLS, Mode, Symbol};
use s2_report::Tally;

/// The two sums of a frame.
#[derive(Clone, Copy)]
pub(crate) struct Errors {
    pub(crate) known: Tally,
    pub(crate) payload: Tally,
}

/// Those of a mode's frame. The payload's symbols are all that are not known.
pub(crate) fn errors_of(mode: Mode, received: &[Symbol], sent: &[Symbol]) -> Errors
    requires received { length received.now ≡ symbols_in mode }
    requires sent { length sent.now ≡ symbols_in mode }
    ensures known { result.known ≡ error_over (known_places mode) received.now sent.now }
    ensures payload { result.payload ≡ error_over (payload_places mode) received.now sent.now }
{
    let blocks = mode.pilot_blocks();
    let slots = mode.slots();
    let known = known_error(mode, received, sent);
    let whole = piece_error(0, received.len(), received, sent);
    Errors {
        known: Tally {
            sum: known,
            of: (HEADER_SYMBOLS + PILOT_BLOCK * blocks) as u64,
        },
        payload: Tally {
            sum: whole - known,
            of: (90 * slots) as u64,
        },
    }
}

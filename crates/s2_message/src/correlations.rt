//! Correlations of received frames with the frames that were sent.
ghost use Rattle.std.specs.Prelude.{◌≡◌, ◌+◌, ◌≤◌, length};
ghost use Rattle.std.specs.List.{range_with_len};
ghost use Rattle.s2_mode.specs.Mode.{symbols_in};
ghost use Rattle.s2_message.specs.Correlation.{IsWithin, correlation_at, correlation_over, sum_over};
ghost use Rattle.s2_message.specs.Errors.{known_places, payload_places};

use crate::correlation_sums::{NO_CORRELATION, correlation, minus, plus};
use crate::pilots::{PILOT_BLOCK, PILOT_PERIOD, PILOT_SPACING};
use s2_mode::{HEADER_SYMBOLS, Mode, Symbol};
use s2_report::Correlation;

/// The correlation of all symbols. Both sides have the same number of symbols, at most 33282.
fn whole_correlation(received: &[Symbol], sent: &[Symbol]) -> Correlation
    requires same { length sent.now ≡ length received.now }
    requires few { length received.now ≤ 33282 }
    ensures is { result ≡ correlation_over (range_with_len 0 (length received.now)) received.now sent.now }
    ensures most { IsWithin (length received.now) result }
{
    let mut sum = NO_CORRELATION;
    for k in 0..received.len() {
        sum = plus(sum, correlation(received[k], sent[k]));
    }
    sum
}

/// The correlation of some symbols of two frames, from a place on. There are at most 33282 of them.
fn piece_correlation(at: usize, len: usize, received: &[Symbol], sent: &[Symbol]) -> Correlation
    requires received { at + len ≤ length received.now }
    requires sent { at + len ≤ length sent.now }
    requires few { len ≤ 33282 }
    ensures is { result ≡ sum_over (correlation_at received.now sent.now) (range_with_len at len) }
    ensures most { IsWithin len result }
{
    whole_correlation(&received[at..at + len], &sent[at..at + len])
}

/// The correlation of the known symbols of a mode's frame: the header's, and those of each pilot block.
fn known_correlation(mode: Mode, received: &[Symbol], sent: &[Symbol]) -> Correlation
    requires received { length received.now ≡ symbols_in mode }
    requires sent { length sent.now ≡ symbols_in mode }
    ensures is { result ≡ correlation_over (known_places mode) received.now sent.now }
    ensures most { IsWithin (symbols_in mode) result }
{
    let blocks = mode.pilot_blocks();
    let mut sum = piece_correlation(0, HEADER_SYMBOLS, received, sent);
    for block in 0..blocks {
        let at = HEADER_SYMBOLS + PILOT_PERIOD * block + PILOT_SPACING;
        sum = plus(sum, piece_correlation(at, PILOT_BLOCK, received, sent));
    }
    sum
}

/// The two correlations of a frame.
#[derive(Clone, Copy)]
pub(crate) struct Correlations {
    pub(crate) known: Correlation,
    pub(crate) payload: Correlation,
}

/// Those of a mode's frame. The payload's symbols are all that are not known.
pub(crate) fn correlations_of(mode: Mode, received: &[Symbol], sent: &[Symbol]) -> Correlations
    requires received { length received.now ≡ symbols_in mode }
    requires sent { length sent.now ≡ symbols_in mode }
    ensures known { result.known ≡ correlation_over (known_places mode) received.now sent.now }
    ensures payload { result.payload ≡ correlation_over (payload_places mode) received.now sent.now }
{
    let known = known_correlation(mode, received, sent);
    let whole = piece_correlation(0, mode.symbols(), received, sent);
    Correlations {
        known,
        payload: minus(whole, known),
    }
}

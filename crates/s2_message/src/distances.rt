//! Squared distances of received symbols to those that were sent, summed.
ghost use Rattle.std.specs.Prelude.{◌≡◌, ◌+◌, ◌*◌, ◌^◌, ◌≤◌, length};
ghost use Rattle.std.specs.List.{range_with_len, sum_by};
ghost use Rattle.s2_mode.specs.Mode.{symbols_in};
ghost use Rattle.s2_message.specs.Errors.{squared_distance, error_at, sum_from, known_places};

use crate::pilots::{PILOT_BLOCK, PILOT_PERIOD, PILOT_SPACING};
use s2_mode::{HEADER_SYMBOLS, Mode, Symbol};

/// The squared distance of two symbols.
#[inline(always)]
fn squared_distance(s: Symbol, p: Symbol) -> u64
    ensures is { result ≡ squared_distance s p }
    ensures most { result ≤ 2 ^ 33 }
{
    let i = u64::from(s.i.abs_diff(p.i));
    let q = u64::from(s.q.abs_diff(p.q));
    i * i + q * q
}

/// The squared distances of all symbols, summed. Both sides have the same number of symbols, at most 33282.
fn whole_error(received: &[Symbol], sent: &[Symbol]) -> u64
    requires same { length sent.now ≡ length received.now }
    requires few { length received.now ≤ 33282 }
    ensures is { result ≡ sum_by (error_at received.now sent.now) (range_with_len 0 (length received.now)) }
    ensures most { result ≤ 2 ^ 33 * length received.now }
{
    let mut error = 0u64;
    for k in 0..received.len() {
        error += squared_distance(received[k], sent[k]);
    }
    error
}

/// The squared distances of some symbols of two frames, from a place on, summed. There are at most 33282 of them.
pub(crate) fn piece_error(at: usize, len: usize, received: &[Symbol], sent: &[Symbol]) -> u64
    requires received { at + len ≤ length received.now }
    requires sent { at + len ≤ length sent.now }
    requires few { len ≤ 33282 }
    ensures is { result ≡ sum_from (error_at received.now sent.now) at len }
    ensures most { result ≤ 2 ^ 33 * len }
{
    whole_error(&received[at..at + len], &sent[at..at + len])
}

/// The squared distances of the known symbols of a mode's frame, summed: the header's, and those of each pilot block.
pub(crate) fn known_error(mode: Mode, received: &[Symbol], sent: &[Symbol]) -> u64
    requires received { length received.now ≡ symbols_in mode }
    requires sent { length sent.now ≡ symbols_in mode }
    ensures { result ≡ sum_by (error_at received.now sent.now) (known_places mode) }
{
    let blocks = mode.pilot_blocks();
    let mut error = piece_error(0, HEADER_SYMBOLS, received, sent);
    for block in 0..blocks {
        let at = HEADER_SYMBOLS + PILOT_PERIOD * block + PILOT_SPACING;
        error += piece_error(at, PILOT_BLOCK, received, sent);
    }
    error
}

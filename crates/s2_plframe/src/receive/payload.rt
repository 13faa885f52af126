//! The payload of a received frame, its XFECFRAME (EN 302 307-1, 5.5).
ghost use Rattle.std.specs.Prelude.{◌≡◌, ℕ, ◌+◌, ◌-◌, ◌*◌, ◌<◌, ◌≤◌, List, length};
ghost use Rattle.s2_mode.specs.declared.symbols.Symbol.{Symbol};
ghost use Rattle.s2_mode.specs.Mode.{slots_of, symbols_in};
ghost use Rattle.s2_mode.specs.Symbols.{symbol_at};
ghost use Rattle.s2_scramble.specs.Gold.{max_scrambled, quarter_turns};
ghost use Rattle.s2_scramble.specs.Rotations.{rotated_back};
ghost use Rattle.s2_plframe.specs.Constants.{pilot_spacing, pilot_block};
ghost use Rattle.s2_plframe.specs.Frame.{frame_symbols};
ghost use Rattle.s2_plframe.specs.Payload.{received_payload, AllRotateBack};
ghost use Rattle.s2_plframe.specs.Inside.{place_behind};

use crate::constants::{PILOT_PERIOD, PILOT_SPACING};
use s2_mode::{HEADER_SYMBOLS, Mode, Symbol};
use s2_scramble::Gold;

/// Writes the payload (XFECFRAME) of a received frame (EN 302 307-1, 5.5): all symbols but the header's
/// and the pilot blocks', rotated back by the scrambler. What `frame_into` wrote gives its payload
/// again, if none of its components was -32768.
///
/// `frame` has `mode.symbols()` symbols, any ones. `payload` has 90 for each slot: 32400, 8100, 21600
/// or 5400 for QPSK normal and short and 8PSK normal and short. Each is written.
pub fn payload_of(mode: Mode, gold: &Gold, frame: &[Symbol], payload: &mut [Symbol])
    requires frame { length frame.now ≡ symbols_in mode }
    requires room { length payload.old ≡ 90 * slots_of mode }
    ensures is { payload.new ≡ received_payload mode gold.now frame.now }
    ensures undoes { (sent : List Symbol) → length sent ≡ 90 * slots_of mode → AllRotateBack sent
        → frame.now ≡ frame_symbols mode gold.now sent → payload.new ≡ sent }
{
    let blocks = mode.pilot_blocks();
    read_slots(blocks, gold, &frame[HEADER_SYMBOLS..], payload);
}

/// Writes the symbols of blocks of 16 slots, without the pilot block after each, then of the other slots.
fn read_slots(blocks: usize, gold: &Gold, slots: &[Symbol], out: &mut [Symbol])
    requires enough { pilot_spacing * blocks ≤ length out.old }
    requires room { length slots.now ≡ length out.old + pilot_block * blocks }
    requires most { length slots.now ≤ max_scrambled }
    ensures { (s : ℕ) → s < length out.old → symbol_at out.new s ≡ rotated_back (quarter_turns gold.now (place_behind blocks s)) (symbol_at slots.now (place_behind blocks s)) }
{
    for block in 0..blocks {
        let at = PILOT_PERIOD * block;
        let to = PILOT_SPACING * block;
        gold.derotate_into(
            at,
            &slots[at..at + PILOT_SPACING],
            &mut out[to..to + PILOT_SPACING],
        );
    }
    let at = PILOT_PERIOD * blocks;
    gold.derotate_into(at, &slots[at..], &mut out[PILOT_SPACING * blocks..]);
}

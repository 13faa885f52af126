//! Physical layer frames: header, slots and pilot blocks (EN 302 307-1, 5.5).
ghost use Rattle.std.specs.Prelude.{◌≡◌, ℕ, ◌+◌, ◌-◌, ◌*◌, ◌<◌, ◌≤◌, length};
ghost use Rattle.s2_mode.specs.Mode.{slots_of, symbols_in};
ghost use Rattle.s2_mode.specs.Symbols.{symbol_at};
ghost use Rattle.s2_scramble.specs.Gold.{max_scrambled, quarter_turns};
ghost use Rattle.s2_scramble.specs.Rotations.{rotated};
ghost use Rattle.s2_plframe.specs.Constants.{pilot_spacing, pilot_block, pilot_period};
ghost use Rattle.s2_plframe.specs.Frame.{spaced_symbol, frame_symbols};

use crate::constants::{PILOT_BLOCK, PILOT_PERIOD, PILOT_SPACING};
use crate::header::pls_code;
use crate::send::header::write_header;
use s2_map::DIAGONAL;
use s2_mode::{HEADER_SYMBOLS, Mode, Symbol};
use s2_scramble::Gold;

/// A pilot block.
const PILOTS: [Symbol; PILOT_BLOCK] = [Symbol {
    i: DIAGONAL,
    q: DIAGONAL,
}; PILOT_BLOCK];

/// Writes the physical layer frame (PLFRAME) of a payload, the XFECFRAME (EN 302 307-1, 5.5): the header's 90
/// symbols, then the slots. If the mode has pilots, a block of 36 of them follows every 16 slots, except at the
/// frame's end. The scrambler rotates all symbols after the header.
///
/// `payload` has 90 symbols for each slot: 32400, 8100, 21600 or 5400 of them for QPSK normal and
/// short and 8PSK normal and short. `frame` has `mode.symbols()` of them: 32490, 8190, 21690 or 5490
/// without pilots, and 33282, 8370, 22194 or 5598 with pilots. Each is written.
pub fn frame_into(mode: Mode, gold: &Gold, payload: &[Symbol], frame: &mut [Symbol])
    requires payload { length payload.now ≡ 90 * slots_of mode }
    requires room { length frame.old ≡ symbols_in mode }
    ensures { frame.new ≡ frame_symbols mode gold.now payload.now }
{
    let blocks = mode.pilot_blocks();
    let (header, slots) = frame.split_at_mut(HEADER_SYMBOLS);
    write_header(pls_code(mode), header);
    write_slots(blocks, gold, payload, slots);
}

/// Writes the symbols after the header: blocks of 16 slots with a pilot block each, then the other slots.
fn write_slots(blocks: usize, gold: &Gold, payload: &[Symbol], out: &mut [Symbol])
    requires enough { pilot_spacing * blocks ≤ length payload.now }
    requires room { length out.old ≡ length payload.now + pilot_block * blocks }
    requires most { length out.old ≤ max_scrambled }
    ensures blocks { (u : ℕ) → u < pilot_period * blocks → symbol_at out.new u ≡ rotated (quarter_turns gold.now u) (spaced_symbol payload.now u) }
    ensures rest { (u : ℕ) → pilot_period * blocks ≤ u → u < length out.old → symbol_at out.new u ≡ rotated (quarter_turns gold.now u) (symbol_at payload.now (u - pilot_block * blocks)) }
{
    for block in 0..blocks {
        let slots = &payload[PILOT_SPACING * block..PILOT_SPACING * block + PILOT_SPACING];
        let at = PILOT_PERIOD * block;
        write_block(gold, at, slots, &mut out[at..at + PILOT_PERIOD]);
    }
    let at = PILOT_PERIOD * blocks;
    gold.turn_into(at, &payload[PILOT_SPACING * blocks..], &mut out[at..]);
}

/// Writes 16 slots and a pilot block.
fn write_block(gold: &Gold, at: usize, slots: &[Symbol], out: &mut [Symbol])
    requires slots { length slots.now ≡ pilot_spacing }
    requires room { length out.old ≡ pilot_period }
    requires most { at + pilot_period ≤ max_scrambled }
    ensures { (k : ℕ) → k < pilot_period → symbol_at out.new k ≡ rotated (quarter_turns gold.now (at + k)) (spaced_symbol slots.now k) }
{
    let (front, pilots) = out.split_at_mut(PILOT_SPACING);
    gold.turn_into(at, slots, front);
    gold.turn_into(at + PILOT_SPACING, &PILOTS, pilots);
}

//! Dummy frames (EN 302 307-1, 5.5.1).
ghost use Rattle.std.specs.Prelude.{◌≡◌, ℕ, ◌*◌, ◌<◌, length};
ghost use Rattle.s2_mode.specs.Limits.{dummy_symbols};
ghost use Rattle.s2_mode.specs.Symbols.{symbol_at};
ghost use Rattle.s2_scramble.specs.Gold.{quarter_turns};
ghost use Rattle.s2_scramble.specs.Rotations.{rotated};
ghost use Rattle.s2_plframe.specs.Constants.{slot, dummy_slots};
ghost use Rattle.s2_plframe.specs.Dummy.{carrier, dummy_frame};

use crate::constants::{DUMMY_SLOTS, SLOT};
use crate::header::dummy_code;
use crate::send::header::write_header;
use s2_map::DIAGONAL;
use s2_mode::{HEADER_SYMBOLS, Symbol};
use s2_scramble::Gold;

/// A slot of the unmodulated carrier.
const CARRIER: [Symbol; SLOT] = [Symbol {
    i: DIAGONAL,
    q: DIAGONAL,
}; SLOT];

/// Writes a dummy frame (dummy PLFRAME, EN 302 307-1, 5.5.1), which carries nothing. It is the 90 symbols of the
/// header with MODCOD 0 and TYPE 0, then 36 slots of the symbol (A, A), without pilot blocks. The scrambler
/// rotates all symbols after the header.
///
/// `frame` has [`s2_mode::DUMMY_SYMBOLS`] symbols, 3330. Each is written.
pub fn dummy_into(gold: &Gold, frame: &mut [Symbol])
    requires { length frame.old ≡ dummy_symbols }
    ensures { frame.new ≡ dummy_frame gold.now }
{
    let (header, slots) = frame.split_at_mut(HEADER_SYMBOLS);
    write_header(dummy_code(false, false), header);
    write_carrier(gold, slots);
}

/// Writes the slots, rotated.
fn write_carrier(gold: &Gold, out: &mut [Symbol])
    requires { length out.old ≡ slot * dummy_slots }
    ensures { (u : ℕ) → u < slot * dummy_slots → symbol_at out.new u ≡ rotated (quarter_turns gold.now u) carrier }
{
    for block in 0..DUMMY_SLOTS {
        let at = SLOT * block;
        gold.turn_into(at, &CARRIER, &mut out[at..at + SLOT]);
    }
}

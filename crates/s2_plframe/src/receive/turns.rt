//! Frames whose symbols are rotated by quarter turns.
ghost use Rattle.std.specs.Prelude.{◌≡◌, ◌<◌, ◌≤◌, length, map};
ghost use Rattle.s2_mode.specs.Limits.{header_symbols};
ghost use Rattle.s2_scramble.specs.Rotations.{negative, rotated_back};
ghost use Rattle.s2_plframe.specs.Turns.{derotated, turn_of};

use crate::receive::search::Search;
use s2_mode::{HEADER_SYMBOLS, Mode, Symbol};

/// The rotation of a frame, 0 to 3: after rotating back by it, the decided bits of its first 90 symbols differ in the
/// fewest places from the header of the mode. Of equals it is the smallest.
pub fn turn_of(mode: Mode, symbols: &[Symbol]) -> u8
    requires { header_symbols ≤ length symbols.now }
    ensures is { result ≡ turn_of mode symbols.now }
    ensures few { result < 4 }
{
    let mut search = Search::new(mode, true);
    for k in 0..HEADER_SYMBOLS {
        let _found = search.feed(symbols[k]);
    }
    search.turn()
}

/// The negative of a component; 32767 for -32768.
#[inline(always)]
fn negative(component: i16) -> i16
    ensures { result ≡ negative component }
{
    component.saturating_neg()
}

/// A symbol rotated back by quarters.
#[inline(always)]
fn rotated_back(turn: u8, symbol: Symbol) -> Symbol
    requires { turn < 4 }
    ensures { result ≡ rotated_back turn symbol }
{
    let Symbol { i, q } = symbol;
    match turn {
        0 => symbol,
        1 => Symbol {
            i: q,
            q: negative(i),
        },
        2 => Symbol {
            i: negative(i),
            q: negative(q),
        },
        _ => Symbol {
            i: negative(q),
            q: i,
        },
    }
}

/// Writes symbols rotated back by quarters.
fn rotate_back_into(turn: u8, symbols: &[Symbol], out: &mut [Symbol])
    requires few { turn < 4 }
    requires same { length out.old ≡ length symbols.now }
    ensures { out.new ≡ map (rotated_back turn) symbols.now }
{
    for k in 0..symbols.len() {
        out[k] = rotated_back(turn, symbols[k]);
    }
}

/// Writes a frame's symbols, rotated back by its rotation, and returns the rotation, 0 to 3. The negative of -32768 is 32767.
///
/// `frame` has at least the 90 symbols of the header. `out` has the length of `frame`. Each is written.
pub fn derotate_into(mode: Mode, frame: &[Symbol], out: &mut [Symbol]) -> u8
    requires header { header_symbols ≤ length frame.now }
    requires same { length out.old ≡ length frame.now }
    ensures turn { result ≡ turn_of mode frame.now }
    ensures few { result < 4 }
    ensures is { out.new ≡ derotated mode frame.now }
{
    let turn = turn_of(mode, frame);
    rotate_back_into(turn, frame, out);
    turn
}

/// Rotates symbols back by quarters, in their place.
fn rotate_back(turn: u8, symbols: &mut [Symbol])
    requires { turn < 4 }
    ensures { symbols.new ≡ map (rotated_back turn) symbols.old }
{
    for k in 0..symbols.len() {
        symbols[k] = rotated_back(turn, symbols[k]);
    }
}

/// Rotates a frame's symbols back by its rotation, in their place, and returns the rotation, as [`derotate_into`].
pub fn derotate(mode: Mode, frame: &mut [Symbol]) -> u8
    requires { header_symbols ≤ length frame.old }
    ensures turn { result ≡ turn_of mode frame.old }
    ensures few { result < 4 }
    ensures is { frame.new ≡ derotated mode frame.old }
{
    let turn = turn_of(mode, frame);
    rotate_back(turn, frame);
    turn
}

//! The symbols of a frame's header, the PLHEADER (EN 302 307-1, 5.5.2).
ghost use Rattle.std.specs.Prelude.{◌≡◌, ℕ, ◌<◌, length};
ghost use Rattle.s2_mode.specs.Limits.{header_symbols};
ghost use Rattle.s2_mode.specs.Mode.{mode_of};
ghost use Rattle.s2_mode.specs.Symbols.{symbol_at};
ghost use Rattle.s2_plframe.specs.Header.{header_point, header_symbol};

use crate::header::{PlsCode, header_bit};
use s2_map::DIAGONAL;
use s2_mode::{HEADER_SYMBOLS, Symbol};

/// Writes the header of a PLSCODE.
pub(crate) fn write_header(code: PlsCode, out: &mut [Symbol])
    requires { length out.old ≡ header_symbols }
    ensures { (i : ℕ) → i < header_symbols → symbol_at out.new i ≡ header_symbol (mode_of code.modcod code.short code.pilots) i }
{
    for i in 0..HEADER_SYMBOLS {
        out[i] = header_point(i, header_bit(code, i));
    }
}

/// A header bit as a symbol.
fn header_point(i: usize, bit: bool) -> Symbol
    ensures { result ≡ header_point i bit }
{
    let level = if bit { -DIAGONAL } else { DIAGONAL };
    if i % 2 == 0 {
        Symbol { i: level, q: level }
    } else {
        Symbol {
            i: -level,
            q: level,
        }
    }
}

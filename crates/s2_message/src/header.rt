//! The header of a received frame: its wrong bits, and its energy.
ghost use Rattle.std.specs.Prelude.{◌≡◌, ℕ, ◌-◌, ◌^◌, ◌<◌, ◌≤◌, length, take};
ghost use Rattle.s2_mode.specs.Limits.{header_symbols};
ghost use Rattle.s2_mode.specs.Mode.{symbols_in};
ghost use Rattle.s2_mode.specs.Symbols.{symbol_at};
ghost use Rattle.s2_plframe.specs.Search.{decision};
ghost use Rattle.s2_plframe.specs.Inside.{held};
ghost use Rattle.s2_message.specs.Header.{header_errors, symbol_energy, energy_of};

use s2_mode::{HEADER_SYMBOLS, Mode, Symbol};
use s2_plframe::{PlsCode, Signs, header_number, wrong_in};

/// The signs of the first 90 symbols.
fn header_signs(symbols: &[Symbol]) -> Signs
    requires { header_symbols ≤ length symbols.now }
    ensures { (k : ℕ) → k < header_symbols → held result.odd result.even (header_symbols - 1 - k) ≡ decision (symbol_at symbols.now k) }
{
    let mut signs = Signs { odd: 0, even: 0 };
    for k in 0..HEADER_SYMBOLS {
        signs = signs.with(symbols[k]);
    }
    signs
}

/// The number of wrong bits of the header of a mode's frame, of 90: those that differ from the header of the mode.
pub(crate) fn header_errors(mode: Mode, symbols: &[Symbol]) -> u32
    requires { length symbols.now ≡ symbols_in mode }
    ensures { result ≡ header_errors mode symbols.now }
{
    let code = PlsCode {
        modcod: mode.modcod(),
        short: mode.is_short(),
        pilots: mode.has_pilots(),
    };
    wrong_in(header_number(code), header_signs(symbols).window())
}

/// I * I + Q * Q.
#[inline(always)]
pub(crate) fn symbol_energy(symbol: Symbol) -> u64
    ensures is { result ≡ symbol_energy symbol }
    ensures most { result ≤ 2 ^ 31 }
{
    let i = u64::from(symbol.i.unsigned_abs());
    let q = u64::from(symbol.q.unsigned_abs());
    i * i + q * q
}

/// The energy of a frame's header (PLHEADER, EN 302 307-1, 5.5.2): the sum of I * I + Q * Q over its 90 symbols. A
/// header without noise at the level of this profile has 90 * 980000.
pub fn header_energy(symbols: &[Symbol]) -> u64
    requires { header_symbols ≤ length symbols.now }
    ensures { result ≡ energy_of (take header_symbols symbols.now) }
{
    let mut energy = 0u64;
    for k in 0..HEADER_SYMBOLS {
        energy += symbol_energy(symbols[k]);
    }
    energy
}

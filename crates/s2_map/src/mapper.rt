//! Codewords (FECFRAMEs) to payload symbols (XFECFRAMEs) (EN 302 307-1, 5.4).
ghost use Rattle.std.specs.Prelude.{◌≡◌, ℕ, ◌+◌, ◌*◌, ◌/◌, ◌<◌, false, pos, neg_ℤ, length, if◌then◌else◌};
ghost use Rattle.s2_mode.specs.Mode.{is_qpsk, n_of, slots_of};
ghost use Rattle.s2_mode.specs.Symbols.{symbol_at};
ghost use Rattle.s2_bits.specs.Bits.{bit_at, number};
ghost use Rattle.s2_map.specs.Constants.{diagonal};
ghost use Rattle.s2_map.specs.Mapping.{qpsk_points, psk_points, payload_symbol, payload_of};

use crate::constants::{DIAGONAL, PSK_3_5};
use crate::lanes::map_eight;
use s2_bits::Bits;
use s2_mode::{Mode, Symbol};

/// Writes the payload of a codeword: its bits interleaved (EN 302 307-1, 5.3.3), and each two
/// (QPSK) or three (8PSK) of them as one symbol (5.4).
///
/// `codeword` has 64800 bits (normal frames) or 16200 (short ones). `payload` has 90
/// symbols for each slot of the mode: 32400 or 8100 for QPSK, 21600 or 5400 for 8PSK. Each is
/// written.
pub fn map_into(mode: Mode, codeword: &Bits, payload: &mut [Symbol])
    requires codeword { length codeword.now ≡ n_of mode }
    requires room { length payload.old ≡ 90 * slots_of mode }
    ensures { payload.new ≡ payload_of mode codeword.now }
{
    let bits = codeword.truths();
    if mode.is_qpsk() {
        map_pairs(bits, payload);
    } else {
        map_rows(mode, bits, payload);
    }
}

/// A component of QPSK: a one is negative.
#[inline(always)]
fn component(bit: bool) -> i16
    ensures { result ≡ if bit then neg_ℤ (pos diagonal) else pos diagonal }
{
    DIAGONAL - 2 * DIAGONAL * i16::from(bit)
}

/// QPSK: each two bits are a symbol, and each bit a component.
fn map_pairs(bits: &[bool], payload: &mut [Symbol])
    requires { length bits.now ≡ 2 * length payload.old }
    ensures { (s : ℕ) → s < length payload.old → symbol_at payload.new s ≡ symbol_at qpsk_points (2 * number (bit_at bits.now (2 * s)) + number (bit_at bits.now (2 * s + 1))) }
{
    for s in 0..payload.len() {
        payload[s] = Symbol {
            i: component(bits[2 * s]),
            q: component(bits[2 * s + 1]),
        };
    }
}

/// 8PSK: the codeword is three columns, which are read from the first or from the last one.
fn map_rows(mode: Mode, bits: &[bool], payload: &mut [Symbol])
    requires psk { is_qpsk mode ≡ false }
    requires codeword { length bits.now ≡ n_of mode }
    requires rows { n_of mode ≡ 3 * length payload.old }
    ensures { (s : ℕ) → s < length payload.old → symbol_at payload.new s ≡ payload_symbol mode bits.now s }
{
    let (first, rest) = bits.split_at(payload.len());
    let (second, third) = rest.split_at(payload.len());
    if mode.modcod() == PSK_3_5 {
        map_columns(third, second, first, payload);
    } else {
        map_columns(first, second, third, payload);
    }
}

/// 8PSK: each row of the three columns, whose rows are whole blocks of eight, is a symbol.
fn map_columns(first: &[bool], second: &[bool], third: &[bool], payload: &mut [Symbol])
    requires first { length first.now ≡ length payload.old }
    requires second { length second.now ≡ length payload.old }
    requires third { length third.now ≡ length payload.old }
    requires blocks { 8 * (length payload.old / 8) ≡ length payload.old }
    ensures { (s : ℕ) → s < length payload.old → symbol_at payload.new s ≡ symbol_at psk_points (4 * number (bit_at first.now s) + 2 * number (bit_at second.now s) + number (bit_at third.now s)) }
{
    for block in 0..payload.len() / 8 {
        map_eight(first, second, third, payload, 8 * block);
    }
}

//! Soft values (quantized LLRs) of a payload.
ghost use Rattle.std.specs.Prelude.{◌≡◌, ℕ, ◌+◌, ◌*◌, ◌/◌, ◌%◌, ◌<◌, false, length};
ghost use Rattle.s2_mode.specs.Mode.{is_qpsk, n_of, slots_of, width_of};
ghost use Rattle.s2_mode.specs.Symbols.{symbol_at};
ghost use Rattle.s2_soft.specs.Soft.{quantized, soft_value, soft_bit, soft_values, value_at, InRange};
ghost use Rattle.s2_map.specs.Mapping.{place_of};
ghost use Rattle.s2_soft.specs.Lanes.{component_at};
ghost use Rattle.s2_soft.specs.Closed.{component_difference, first_difference, second_difference, third_difference};

use crate::divisor::Divisor;
use crate::psk8::{
    self, first_differences, numbers, pairs, second_differences, third_differences, upper_numbers,
};
use crate::qpsk::{component_values, components, store};
use crate::values::{component_value, psk_values};
use s2_map::PSK_3_5;
use s2_mode::{Mode, Symbol};

/// Writes the soft values of a payload whose scrambling is undone, in the order of the codeword's bits.
///
/// The value of a bit is the least squared distance to a point whose label has 1 at the bit's place (EN 302 307-1,
/// 5.4), less that to a point with 0 there. This difference is divided by `divisor` toward zero and limited to
/// -[`s2_mode::MAX_SOFT`] to [`s2_mode::MAX_SOFT`]. Any components are accepted.
///
/// `payload` has 90 symbols for each slot of the mode: 32400 or 8100 for QPSK, 21600 or 5400 for 8PSK.
/// `soft` has a value for each of the codeword's 64800 bits (normal frames) or 16200 (short ones).
/// Each is written.
pub fn soft_into(mode: Mode, divisor: Divisor, payload: &[Symbol], soft: &mut [i16])
    requires payload { length payload.now ≡ 90 * slots_of mode }
    requires room { length soft.old ≡ n_of mode }
    ensures is { soft.new ≡ soft_values divisor mode payload.now }
    ensures places { (i : ℕ) → i < n_of mode → value_at soft.new (place_of mode i)
        ≡ soft_value divisor mode (symbol_at payload.now (i / width_of mode)) (i % width_of mode) }
    ensures range { (k : ℕ) → InRange (value_at soft.new k) }
{
    if mode.is_qpsk() {
        qpsk_into(divisor, payload, soft);
    } else {
        psk8_into(mode, divisor, payload, soft);
    }
}

/// QPSK: each component of whole fours of symbols is the soft value of a bit.
fn qpsk_by_fours(divisor: Divisor, payload: &[Symbol], soft: &mut [i16])
    requires { length soft.old ≡ 2 * length payload.now }
    ensures { (b : ℕ) → b < length payload.now / 4 * 8 → value_at soft.new b ≡ quantized divisor (component_difference (component_at payload.now b)) }
{
    let factor = divisor.factor();
    for block in 0..payload.len() / 4 {
        let values = component_values(components(payload, 4 * block), factor);
        store(values, soft, 8 * block);
    }
}

/// QPSK: each component is the soft value of a bit.
pub(crate) fn qpsk_into(divisor: Divisor, payload: &[Symbol], soft: &mut [i16])
    requires { length soft.old ≡ 2 * length payload.now }
    ensures { (b : ℕ) → b < 2 * length payload.now → value_at soft.new b ≡ quantized divisor (component_difference (component_at payload.now b)) }
{
    qpsk_by_fours(divisor, payload, soft);
    for s in payload.len() / 4 * 4..payload.len() {
        let Symbol { i, q } = payload[s];
        soft[2 * s] = component_value(divisor, i);
        soft[2 * s + 1] = component_value(divisor, q);
    }
}

/// 8PSK: the codeword is three columns, sent from the first one or from the last one.
fn psk8_into(mode: Mode, divisor: Divisor, payload: &[Symbol], soft: &mut [i16])
    requires psk { is_qpsk mode ≡ false }
    requires codeword { length soft.old ≡ n_of mode }
    requires rows { n_of mode ≡ 3 * length payload.now }
    ensures { (b : ℕ) → b < n_of mode → value_at soft.new b ≡ soft_bit divisor mode payload.now b }
{
    let (first, rest) = soft.split_at_mut(payload.len());
    let (second, third) = rest.split_at_mut(payload.len());
    if mode.modcod() == PSK_3_5 {
        columns_into(divisor, payload, third, second, first);
    } else {
        columns_into(divisor, payload, first, second, third);
    }
}

/// 8PSK: each symbol of whole fours has a bit in each column.
fn columns_by_fours(
    divisor: Divisor,
    payload: &[Symbol],
    first: &mut [i16],
    second: &mut [i16],
    third: &mut [i16],
)
    requires first { length first.old ≡ length payload.now }
    requires second { length second.old ≡ length payload.now }
    requires third { length third.old ≡ length payload.now }
    ensures first { (s : ℕ) → s < length payload.now / 4 * 4 → value_at first.new s ≡ quantized divisor (first_difference (symbol_at payload.now s).i (symbol_at payload.now s).q) }
    ensures second { (s : ℕ) → s < length payload.now / 4 * 4 → value_at second.new s ≡ quantized divisor (second_difference (symbol_at payload.now s).i (symbol_at payload.now s).q) }
    ensures third { (s : ℕ) → s < length payload.now / 4 * 4 → value_at third.new s ≡ quantized divisor (third_difference (symbol_at payload.now s).i (symbol_at payload.now s).q) }
{
    let shift = divisor.shift();
    for block in 0..payload.len() / 4 {
        let at = 4 * block;
        let pairs = pairs(payload, at);
        let i = numbers(pairs);
        let q = upper_numbers(pairs);
        psk8::store(psk8::quantized(first_differences(i, q), shift), first, at);
        psk8::store(psk8::quantized(second_differences(i, q), shift), second, at);
        psk8::store(psk8::quantized(third_differences(i, q), shift), third, at);
    }
}

/// 8PSK: each symbol has a bit in each column.
pub(crate) fn columns_into(
    divisor: Divisor,
    payload: &[Symbol],
    first: &mut [i16],
    second: &mut [i16],
    third: &mut [i16],
)
    requires first { length first.old ≡ length payload.now }
    requires second { length second.old ≡ length payload.now }
    requires third { length third.old ≡ length payload.now }
    ensures first { (s : ℕ) → s < length payload.now → value_at first.new s ≡ quantized divisor (first_difference (symbol_at payload.now s).i (symbol_at payload.now s).q) }
    ensures second { (s : ℕ) → s < length payload.now → value_at second.new s ≡ quantized divisor (second_difference (symbol_at payload.now s).i (symbol_at payload.now s).q) }
    ensures third { (s : ℕ) → s < length payload.now → value_at third.new s ≡ quantized divisor (third_difference (symbol_at payload.now s).i (symbol_at payload.now s).q) }
{
    columns_by_fours(divisor, payload, first, second, third);
    let done = payload.len() / 4 * 4;
    for s in done..payload.len() {
        let values = psk_values(divisor, payload[s]);
        first[s] = values.first;
        second[s] = values.second;
        third[s] = values.third;
    }
}

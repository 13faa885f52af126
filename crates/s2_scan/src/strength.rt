//! How strong the symbols of a recording are, if no header is found.
ghost use Rattle.std.specs.Prelude.{◌≡◌, ◌+◌, ◌*◌, ◌/◌, ◌^◌, ◌<◌, ◌≤◌, ◌++◌, length, OnOk};
ghost use Rattle.std.specs.List.{range_with_len, sum_by};
ghost use Rattle.s2_scan.specs.Strength as by;

use crate::amplitude::{one_if, rounded_root};
use crate::forms::symbol_in;
use crate::lines::choose;
use crate::sums::{conjugated_if, energy};
use crate::texts::{push, push_number};
use std::alloc::AllocError;

/// The bytes of a symbol.
const SYMBOL: usize = 4;

/// The component from which on a symbol is clipped.
const CLIPPED: u16 = 32767;

/// The number of symbols.
fn symbols_in(bytes: &[u8]) -> usize
    ensures { result ≡ by.symbols_in bytes.now }
{
    bytes.len() / SYMBOL
}

/// The energy of a symbol: I * I + Q * Q.
#[tactic(auto, unfolding(crate::specs::Strength::energy_at))]
fn energy_at(little: bool, bytes: &[u8], k: usize) -> u64
    requires { 4 * k + 4 ≤ length bytes.now }
    ensures { result ≡ by.energy_at little bytes.now k }
{
    energy(conjugated_if(false, symbol_in(little, bytes, k)))
}

/// The energy of all symbols.
fn energy_of(little: bool, bytes: &[u8]) -> u128
    ensures is { result ≡ sum_by (by.energy_at little bytes.now) (range_with_len 0 (by.symbols_in bytes.now)) }
    ensures few { result < 2 ^ 125 }
{
    let mut energy = 0u128;
    for k in 0..symbols_in(bytes) {
        energy += u128::from(energy_at(little, bytes, k));
    }
    energy
}

/// The root of the mean of I * I + Q * Q over all symbols, rounded.
#[tactic(auto, unfolding(crate::specs::Strength::rms_of))]
fn rms_of(little: bool, bytes: &[u8]) -> u64
    ensures { result ≡ by.rms_of little bytes.now }
{
    let symbols = symbols_in(bytes).max(1) as u128;
    rounded_root(energy_of(little, bytes) / symbols)
}

/// Whether a component of a symbol is the largest one, or its negative, or less.
#[tactic(auto, unfolding(crate::specs::Strength::is_clipped))]
fn is_clipped(little: bool, bytes: &[u8], k: usize) -> bool
    requires { 4 * k + 4 ≤ length bytes.now }
    ensures { result ≡ by.is_clipped little bytes.now k }
{
    let symbol = symbol_in(little, bytes, k);
    symbol.i.unsigned_abs() >= CLIPPED || symbol.q.unsigned_abs() >= CLIPPED
}

/// How many symbols have such a component.
#[tactic(auto, unfolding(crate::specs::Strength::clipped_in))]
fn clipped_in(little: bool, bytes: &[u8]) -> u64
    ensures { result ≡ by.clipped_in little bytes.now }
{
    let mut count = 0u64;
    for place in 0..symbols_in(bytes) {
        count += one_if(is_clipped(little, bytes, place));
    }
    count
}

/// The line of how strong symbols are, read in a byte order.
#[tactic(auto, unfolding(crate::specs::Strength::strength_line))]
fn push_strength(text: &mut Vec<u8>, little: bool, bytes: &[u8]) -> Result<(), AllocError>
    ensures { OnOk result (text.new.items ≡ text.old.items ++ by.strength_line little bytes.now) }
{
    push_number(text, "symbols ", symbols_in(bytes) as u64)?;
    push_number(text, " rms ", rms_of(little, bytes))?;
    push_number(text, " clipped ", clipped_in(little, bytes))?;
    push(text, choose(little, " bytes little\n", " bytes big\n"))
}

/// What is printed if no header is found.
#[tactic(auto, unfolding(crate::specs::Strength::nothing_text))]
pub(crate) fn push_nothing(text: &mut Vec<u8>, bytes: &[u8]) -> Result<(), AllocError>
    ensures { OnOk result (text.new.items ≡ text.old.items ++ by.nothing_text bytes.now) }
{
    push(text, "nothing found\n")?;
    push_strength(text, false, bytes)?;
    push_strength(text, true, bytes)?;
    push(text, "try tools/receive for floats and 8-bit samples\n")
}

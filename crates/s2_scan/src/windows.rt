//! The positions of a block of bytes, one after the other.
ghost use Rattle.std.specs.Prelude.{ℕ, List, ◌≡◌, ◌+◌, ◌*◌, ◌-◌, ◌/◌, ◌^◌, ◌<◌, ◌≤◌, ◌++◌, nat_lt, [], true, false, length, if◌then◌else◌, OnOk};
ghost use Rattle.s2_plframe.specs.Header.{header_bit, dummy_mode};
ghost use Rattle.s2_plframe.specs.Inside.{IsHeader, IsWindow};
ghost use Rattle.s2_scan.specs.Forms.{is_little};
ghost use Rattle.s2_scan.specs.Inside.{AreHeaders, HoldsLast, HoldsWindow, NoneMatches};
ghost use Rattle.s2_scan.specs.Passing as passing;

use crate::codes::HEADERS;
use crate::forms::{FORMS, ORIENTATIONS, may_match, symbol_in, undo};
use crate::passes::{Pass, push_form};
use s2_mode::HEADER_SYMBOLS;
use s2_plframe::Signs;
use std::alloc::AllocError;

/// The bytes of a symbol.
const SYMBOL: usize = 4;

/// The bytes of the 90 symbols of a header.
const WINDOW: usize = 360;

/// The signs of the last symbols, read in both byte orders.
#[derive(Clone, Copy)]
struct Orders {
    big: Signs,
    little: Signs,
}

/// Those before the first symbol.
fn no_signs() -> Orders {
    Orders {
        big: Signs { odd: 0, even: 0 },
        little: Signs { odd: 0, even: 0 },
    }
}

/// Those after one more symbol.
#[inline(always)]
fn with_symbol(orders: Orders, bytes: &[u8], k: usize) -> Orders
    requires there { 4 * k + 4 ≤ length bytes.now }
    requires big { HoldsLast false bytes.now k orders.big.odd orders.big.even }
    requires little { HoldsLast true bytes.now k orders.little.odd orders.little.even }
    ensures big { HoldsLast false bytes.now (k + 1) result.big.odd result.big.even }
    ensures little { HoldsLast true bytes.now (k + 1) result.little.odd result.little.even }
{
    Orders {
        big: orders.big.with(symbol_in(false, bytes, k)),
        little: orders.little.with(symbol_in(true, bytes, k)),
    }
}

/// The signs in the byte order of a form.
fn signs_in(form: usize, orders: Orders) -> Signs
    ensures { result ≡ (if is_little form then orders.little else orders.big) }
{
    if form >= ORIENTATIONS {
        orders.little
    } else {
        orders.big
    }
}

/// The decided bits of a window in a form, from its signs in both byte orders.
fn seen_as(form: usize, orders: Orders) -> u128
    ensures { (window : List ℕ) → HoldsWindow false window orders.big.odd orders.big.even → HoldsWindow true window orders.little.odd orders.little.even → IsWindow (passing.seen_as form window) result }
{
    undo(form % ORIENTATIONS, signs_in(form, orders)).window()
}

/// The bytes of the 90 symbols from a position on.
fn window_at(position: usize, bytes: &[u8]) -> &[u8]
    requires { 4 * position + 360 ≤ length bytes.now }
    ensures { result.now ≡ passing.window_at position bytes.now }
{
    let from = SYMBOL * position;
    &bytes[from..from + WINDOW]
}

/// Appends the passes of a window to others.
fn push_window(
    numbers: &[u128; HEADERS],
    position: u64,
    window: &[u8],
    orders: Orders,
    passes: &mut Vec<Pass>,
) -> Result<(), AllocError>
    requires headers { AreHeaders numbers.now }
    requires window { length window.now ≡ 360 }
    requires big { HoldsWindow false window.now orders.big.odd orders.big.even }
    requires little { HoldsWindow true window.now orders.little.odd orders.little.even }
    ensures { OnOk result (passes.new.items ≡ passes.old.items ++ passing.passes_at position window.now) }
{
    for form in 0..FORMS {
        let seen = seen_as(form, orders);
        push_form(numbers, seen, position, form, window, passes)?;
    }
    Ok(())
}

/// Whether a start of frame may match in some form.
#[inline(always)]
fn may_pass(header: u128, orders: Orders) -> bool
    requires { IsHeader (header_bit (dummy_mode false false)) header }
    ensures big { result ≡ false → NoneMatches orders.big.odd orders.big.even }
    ensures little { result ≡ false → NoneMatches orders.little.odd orders.little.even }
{
    may_match(header, orders.big) | may_match(header, orders.little)
}

/// Appends the passes of the position whose header ends with symbol `k` to others, if there is one.
#[inline(always)]
fn push_last(
    numbers: &[u128; HEADERS],
    first: u64,
    bytes: &[u8],
    k: usize,
    orders: Orders,
    passes: &mut Vec<Pass>,
) -> Result<(), AllocError>
    requires headers { AreHeaders numbers.now }
    requires there { 4 * k + 4 ≤ length bytes.now }
    requires few { first + length bytes.now < 2 ^ 64 }
    requires big { HoldsLast false bytes.now (k + 1) orders.big.odd orders.big.even }
    requires little { HoldsLast true bytes.now (k + 1) orders.little.odd orders.little.even }
    ensures { OnOk result (passes.new.items ≡ passes.old.items ++ (if nat_lt k 89 then [] else passing.passes_at (first + (k - 89)) (passing.window_at (k - 89) bytes.now))) }
{
    if k < HEADER_SYMBOLS - 1 || !may_pass(numbers[0], orders) {
        return Ok(());
    }
    let at = k - (HEADER_SYMBOLS - 1);
    let window = window_at(at, bytes);
    push_window(numbers, first + at as u64, window, orders, passes)
}

/// Appends the passes of bytes to others. The bytes begin at the position `first` of the recording.
pub(crate) fn push_block(
    numbers: &[u128; HEADERS],
    first: u64,
    bytes: &[u8],
    passes: &mut Vec<Pass>,
) -> Result<(), AllocError>
    requires headers { AreHeaders numbers.now }
    requires few { first + length bytes.now < 2 ^ 64 }
    ensures { OnOk result (passes.new.items ≡ passes.old.items ++ passing.passes_below first bytes.now (passing.positions_in bytes.now)) }
{
    let mut orders = no_signs();
    for k in 0..bytes.len() / SYMBOL {
        orders = with_symbol(orders, bytes, k);
        push_last(numbers, first, bytes, k, orders, passes)?;
    }
    Ok(())
}

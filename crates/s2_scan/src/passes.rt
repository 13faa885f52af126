//! The positions of a recording that pass as a header.
ghost use Rattle.std.specs.Prelude.{◌≡◌, ◌+◌, ◌*◌, ◌-◌, ◌<◌, ◌≤◌, ◌++◌, ℕ, List, [], ◌∷◌, length, if◌then◌else◌, OnOk};
ghost use Rattle.std.specs.List.{flat_map};
ghost use Rattle.s2_plframe.specs.Inside.{IsWindow};
ghost use Rattle.s2_scan.specs.Inside.{AreHeaders, IsWithin};
ghost use Rattle.s2_scan.specs.Passing as passing;

use crate::codes::HEADERS;
use crate::forms::{is_sof, symbol_in};
use crate::lines::is_conjugate;
use crate::sums::{NO_SUM, Sum, conjugated_if, energy, plus, turned_back};
use s2_mode::HEADER_SYMBOLS;
use s2_plframe::{HEADER_THRESHOLD, wrong_in};
use std::alloc::AllocError;

/// A position that passes as a header in a form, and the energy of its 90 symbols without their noise.
#[derive(Clone, Copy)]
pub(crate) struct Pass {
    pub(crate) position: u64,
    pub(crate) form: usize,
    pub(crate) header: usize,
    pub(crate) energy: u64,
}

/// By how many quarter turns symbol `k` of a header is rotated from (A, A).
fn header_quarters(numbers: &[u128; HEADERS], header: usize, k: usize) -> u8
    requires headers { AreHeaders numbers.now }
    requires header { header < 116 }
    requires k { k < 90 }
    ensures { result ≡ passing.header_quarters (passing.code_at header) k }
{
    let bit = (numbers[header] >> (HEADER_SYMBOLS - 1 - k)) % 2;
    (k % 2) as u8 + 2 * bit as u8
}

/// The symbols of a window rotated back by those of a header, and added up.
fn header_sum(numbers: &[u128; HEADERS], form: usize, header: usize, window: &[u8]) -> Sum
    requires headers { AreHeaders numbers.now }
    requires header { header < 116 }
    requires window { length window.now ≡ 360 }
    ensures is { result ≡ passing.header_sum form header window.now }
    ensures within { IsWithin 37748736 result }
{
    let mut sum = NO_SUM;
    for k in 0..HEADER_SYMBOLS {
        let quarters = header_quarters(numbers, header, k);
        let symbol = conjugated_if(is_conjugate(form), symbol_in(form >= 8, window, k));
        sum = plus(sum, turned_back(quarters, symbol));
    }
    sum
}

/// Appends the pass of a window as a header to others.
fn push_pass(
    numbers: &[u128; HEADERS],
    position: u64,
    form: usize,
    header: usize,
    window: &[u8],
    passes: &mut Vec<Pass>,
) -> Result<(), AllocError>
    requires headers { AreHeaders numbers.now }
    requires header { header < 116 }
    requires window { length window.now ≡ 360 }
    ensures { OnOk result (passes.new.items ≡ passes.old.items ++ passing.pass_as position window.now form header ∷ []) }
{
    let energy = energy(header_sum(numbers, form, header, window)) / HEADER_SYMBOLS as u64;
    passes.push(Pass {
        position,
        form,
        header,
        energy,
    })?;
    Ok(())
}

/// Appends the pass of a window as a header to others, if it is near enough.
fn push_near(
    near: bool,
    numbers: &[u128; HEADERS],
    position: u64,
    form: usize,
    header: usize,
    window: &[u8],
    passes: &mut Vec<Pass>,
) -> Result<(), AllocError>
    requires headers { AreHeaders numbers.now }
    requires header { header < 116 }
    requires window { length window.now ≡ 360 }
    ensures { OnOk result (passes.new.items ≡ passes.old.items ++ (if near then passing.pass_as position window.now form header ∷ [] else [])) }
{
    if near {
        push_pass(numbers, position, form, header, window, passes)
    } else {
        Ok(())
    }
}

/// Appends the passes of a window whose start of frame matches, in a form, to others.
fn push_headers(
    numbers: &[u128; HEADERS],
    seen: u128,
    position: u64,
    form: usize,
    window: &[u8],
    passes: &mut Vec<Pass>,
) -> Result<(), AllocError>
    requires headers { AreHeaders numbers.now }
    requires window { length window.now ≡ 360 }
    requires seen { IsWindow (passing.seen_as form window.now) seen }
    ensures { OnOk result (passes.new.items ≡ passes.old.items ++ flat_map (passing.passes_as position window.now form) passing.headers) }
{
    for header in 0..HEADERS {
        let near = wrong_in(numbers[header], seen) <= HEADER_THRESHOLD;
        push_near(near, numbers, position, form, header, window, passes)?;
    }
    Ok(())
}

/// Appends the passes of a window in a form to others.
pub(crate) fn push_form(
    numbers: &[u128; HEADERS],
    seen: u128,
    position: u64,
    form: usize,
    window: &[u8],
    passes: &mut Vec<Pass>,
) -> Result<(), AllocError>
    requires headers { AreHeaders numbers.now }
    requires window { length window.now ≡ 360 }
    requires seen { IsWindow (passing.seen_as form window.now) seen }
    ensures { OnOk result (passes.new.items ≡ passes.old.items ++ passing.passes_in_form position window.now form) }
{
    if is_sof(numbers[0], seen) {
        push_headers(numbers, seen, position, form, window, passes)
    } else {
        Ok(())
    }
}

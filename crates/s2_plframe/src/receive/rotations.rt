//! The windows of the last symbols in the four rotations, and the tests over all of them.
ghost use Rattle.std.specs.Prelude.{◌≡◌, ◌<◌, ◌%◌, ◌^◌, true};
ghost use Rattle.s2_mode.specs.Limits.{header_symbols};
ghost use Rattle.s2_plframe.specs.Turns.{first_least, found_of, least_of};
ghost use Rattle.s2_plframe.specs.Inside.{AreApart, AreWindows, IsFar, in_turn, is_between, is_far, sides_list, wrong_in, wrong_in_dummy};

use crate::constants::HEADER_THRESHOLD;
use crate::receive::found::Found;
use crate::receive::headers::{Headers, wrong_in_dummy};
use crate::receive::registers::{Signs, low, wrong_in};

/// The decided bits of the last 90 symbols, as they came and rotated back by one, two and three quarters.
#[derive(Clone, Copy)]
pub(crate) struct Windows {
    none: u128,
    one: u128,
    two: u128,
    three: u128,
}

/// The windows of the signs of symbols, and of those rotated by two quarters.
#[inline(always)]
pub(crate) fn windows_of(straight: Signs, opposite: Signs) -> Windows
    ensures { AreWindows (sides_list straight.odd straight.even opposite.odd opposite.even header_symbols) result.none result.one result.two result.three }
{
    let one = Signs {
        odd: straight.even,
        even: opposite.odd,
    };
    let three = Signs {
        odd: opposite.even,
        even: straight.odd,
    };
    Windows {
        none: straight.window(),
        one: one.window(),
        two: opposite.window(),
        three: three.window(),
    }
}

/// The number of wrong bits of a header in the rotation in which it has the fewest.
pub(crate) fn least_wrong(header: u128, windows: Windows) -> u32
    ensures { result ≡ least_of (λ t. wrong_in header (in_turn windows.none windows.one windows.two windows.three t)) }
{
    let first = wrong_in(header, windows.none).min(wrong_in(header, windows.one));
    let last = wrong_in(header, windows.two).min(wrong_in(header, windows.three));
    first.min(last)
}

/// The same for the nearest of the headers of dummy frames.
pub(crate) fn least_wrong_dummy(headers: &Headers, windows: Windows) -> u32
    ensures { result ≡ least_of (λ t. wrong_in_dummy headers.now.dummy headers.now.dummy_pilots headers.now.dummy_short headers.now.dummy_both (in_turn windows.none windows.one windows.two windows.three t)) }
{
    let none = wrong_in_dummy(headers, windows.none);
    let one = wrong_in_dummy(headers, windows.one);
    let two = wrong_in_dummy(headers, windows.two);
    let three = wrong_in_dummy(headers, windows.three);
    none.min(one).min(two.min(three))
}

/// The first rotation in which a header has the fewest wrong bits.
pub(crate) fn turn_by(header: u128, windows: Windows) -> u8
    ensures is { result ≡ first_least (λ t. wrong_in header (in_turn windows.none windows.one windows.two windows.three t)) }
    ensures few { result < 4 }
{
    let least = least_wrong(header, windows);
    if wrong_in(header, windows.none) == least {
        0
    } else if wrong_in(header, windows.one) == least {
        1
    } else if wrong_in(header, windows.two) == least {
        2
    } else {
        3
    }
}

/// Whether the lowest 64 bits of a window and of a header differ in more than 12 places, and so do those of the window's
/// complement.
#[inline(always)]
fn is_between(apart: u32, header: u64, window: u64) -> bool
    ensures { result ≡ is_between apart (wrong_in header window) }
{
    let wrong = (header ^ window).count_ones();
    wrong > HEADER_THRESHOLD && wrong + HEADER_THRESHOLD < apart
}

/// Whether the lowest 64 bits of a window show that neither it nor its complement is near a header.
#[inline(always)]
fn is_far(headers: &Headers, window: u64) -> bool
    ensures { result ≡ is_far headers.now.apart (headers.now.coded % 2 ^ 64) (headers.now.dummy % 2 ^ 64) (headers.now.dummy_pilots % 2 ^ 64) window }
{
    is_between(headers.apart, low(headers.coded), window)
        && is_between(headers.apart, low(headers.dummy), window)
        && is_between(headers.apart, low(headers.dummy_pilots), window)
}

/// Whether the lowest bits of a window and of the one rotated by two quarters show that neither is near a header. The second
/// is the complement of the first if no sum of components is zero.
#[inline(always)]
fn are_far(headers: &Headers, window: u128, turned: u128) -> bool
    requires { AreApart headers.now.dummy headers.now.dummy_pilots headers.now.dummy_short headers.now.dummy_both headers.now.opposite headers.now.apart }
    ensures first { result ≡ true → IsFar headers.now.coded headers.now.dummy headers.now.dummy_pilots headers.now.dummy_short headers.now.dummy_both window }
    ensures second { result ≡ true → IsFar headers.now.coded headers.now.dummy headers.now.dummy_pilots headers.now.dummy_short headers.now.dummy_both turned }
{
    let first = low(window);
    let second = low(turned);
    is_far(headers, first) && (first ^ headers.opposite == second || is_far(headers, second))
}

/// What the last 90 symbols are if all rotations are sought.
#[inline(always)]
pub(crate) fn found_turned(headers: &Headers, windows: Windows) -> Found
    requires { AreApart headers.now.dummy headers.now.dummy_pilots headers.now.dummy_short headers.now.dummy_both headers.now.opposite headers.now.apart }
    ensures { result ≡ found_of (least_of (λ t. wrong_in headers.now.coded (in_turn windows.none windows.one windows.two windows.three t)))
        (least_of (λ t. wrong_in_dummy headers.now.dummy headers.now.dummy_pilots headers.now.dummy_short headers.now.dummy_both (in_turn windows.none windows.one windows.two windows.three t))) }
{
    if are_far(headers, windows.none, windows.two) && are_far(headers, windows.one, windows.three) {
        return Found::Nothing;
    }
    found_near(headers, windows)
}

/// The same by all bits of all windows.
fn found_near(headers: &Headers, windows: Windows) -> Found
    ensures { result ≡ found_of (least_of (λ t. wrong_in headers.now.coded (in_turn windows.none windows.one windows.two windows.three t)))
        (least_of (λ t. wrong_in_dummy headers.now.dummy headers.now.dummy_pilots headers.now.dummy_short headers.now.dummy_both (in_turn windows.none windows.one windows.two windows.three t))) }
{
    if least_wrong(headers.coded, windows) <= HEADER_THRESHOLD {
        Found::Coded
    } else if least_wrong_dummy(headers, windows) <= HEADER_THRESHOLD {
        Found::Dummy
    } else {
        Found::Nothing
    }
}
